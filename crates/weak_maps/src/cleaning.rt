//! Maps that are cleaned.
ghost use Rattle.std.specs.Prelude.{◌≡◌, ◌-◌, ◌<◌, ◌≤◌};
ghost use Rattle.model_core.specs.declared.command.Command.TheVariants as command;
ghost use Rattle.weak_laws.specs.Maps.Calls.{PerformedBy};
ghost use Rattle.weak_maps.specs.Cleans.{CleansAt, CleansBlock, CleansField, EmptiesField, width_of};
ghost use Rattle.weak_maps.specs.Frames.{Leaves};

use crate::digits::width_of;
use crate::emptying::forget_high;
use crate::machine::{Machine, perform};
use crate::replies::{is_block, is_empty, is_other_kind};
use model_core::command::Command;
use model_core::reply::Reply;
use std::sync::Wait;

// Reads a field of the block in a register.
fn read_field<M: Machine, R: Wait>(m: &mut M, rt: &R, value: u8, block: u8, index: u16) -> Reply
    requires few { (8 ≤ value) × (value < 16) × (block < 16) }
    ensures leaves { Leaves M.sizes M.domain M.heap M.front M.labels_left M.ephes_room m.old m.new }
    ensures read { PerformedBy (M.sizes m.old) (M.domain m.old) (M.front m.old) (M.front m.new) (command.Load value block index) result }
{
    perform(
        m,
        rt,
        Command::Load {
            dst: value,
            src: block,
            index,
        },
    )
}

// Reads the key of the leaf in a register into that register.
fn read_key<M: Machine, R: Wait>(m: &mut M, rt: &R, value: u8) -> Reply
    requires few { (8 ≤ value) × (value < 16) }
    ensures leaves { Leaves M.sizes M.domain M.heap M.front M.labels_left M.ephes_room m.old m.new }
    ensures read { PerformedBy (M.sizes m.old) (M.domain m.old) (M.front m.old) (M.front m.new) (command.GetKey value value 0) result }
{
    perform(
        m,
        rt,
        Command::GetKey {
            dst: value,
            ephe: value,
            index: 0,
        },
    )
}

// Puts the 0 in register 15 into a field of the block in a register.
fn empty_field<M: Machine, R: Wait>(m: &mut M, rt: &R, block: u8, index: u16)
    requires few { block < 16 }
    ensures leaves { Leaves M.sizes M.domain M.heap M.front M.labels_left M.ephes_room m.old m.new }
    ensures emptied { EmptiesField (M.sizes m.old) (M.domain m.old) (M.front m.old) (M.front m.new) block index }
{
    let _done = perform(
        m,
        rt,
        Command::Store {
            block,
            index,
            item: 15,
        },
    );
}

// Cleans a field of the block in a register, below which there may be so many blocks in a row, and what stands below the
// field. Tells whether the field holds 0 then.
#[cycle(cleaning)]
fn clean_field<M: Machine, R: Wait>(m: &mut M, rt: &R, block: u8, left: u8, index: u16) -> bool
    requires few { (left ≤ 6) × (block < 14 - left) }
    ensures leaves { Leaves M.sizes M.domain M.heap M.front M.labels_left M.ephes_room m.old m.new }
    ensures cleaned { CleansField (M.sizes m.old) (M.domain m.old) (M.front m.old) (M.front m.new) block left index result }
{
    m.shows_legal();
    let value = 14 - left;
    let at = read_field(m, rt, value, block, index);
    if !is_block(&at) {
        return true;
    }
    let key = read_key(m, rt, value);
    if is_other_kind(&key) {
        if left == 0 {
            return false;
        }
        if !clean_block(m, rt, value, left - 1) {
            return false;
        }
        empty_field(m, rt, block, index);
        return true;
    }
    if !is_empty(&key) {
        return false;
    }
    empty_field(m, rt, block, index);
    true
}

// Cleans the block in a register, below which there may be so many blocks in a row, and what stands below it. Tells whether
// all its fields hold 0 then.
#[cycle(cleaning)]
fn clean_block<M: Machine, R: Wait>(m: &mut M, rt: &R, block: u8, left: u8) -> bool
    requires few { (left ≤ 6) × (block < 14 - left) }
    ensures leaves { Leaves M.sizes M.domain M.heap M.front M.labels_left M.ephes_room m.old m.new }
    ensures cleaned { CleansBlock (M.sizes m.old) (M.domain m.old) (M.front m.old) (M.front m.new) block left (width_of left) result }
{
    let mut empty = true;
    'fields: for index in 0..width_of(left) {
        if !clean_field(m, rt, block, left, index) {
            empty = false;
        }
    }
    empty
}

/// Cleans the map in a register, which no other domain uses meanwhile: the fields of leaves that have lost their key are
/// emptied, and each block of the map that holds nothing any more is given back, but for the first. Each leaf that is left had
/// its key when the call began. Tells whether the map holds nothing any more: then it binds no key. No binding is changed, and
/// nothing is made. Registers are below 8. Registers 8 to 15 hold nothing afterwards.
pub fn map_clean<M: Machine, R: Wait>(m: &mut M, rt: &R, map: u8) -> bool
    requires few { map < 8 }
    ensures leaves { Leaves M.sizes M.domain M.heap M.front M.labels_left M.ephes_room m.old m.new }
    ensures answer { CleansAt (M.sizes m.old) (M.domain m.old) (M.front m.old) (M.front m.new) map result }
{
    m.shows_legal();
    let _zero = perform(m, rt, Command::PutInt { dst: 15, value: 0 });
    let empty = clean_block(m, rt, map, 6);
    forget_high(m, rt);
    empty
}
