//! How many bindings a map has.
ghost use Rattle.std.specs.Prelude.{◌≡◌, ◌-◌, ◌<◌, ◌≤◌};
ghost use Rattle.weak_maps.specs.Cleans.{width_of};
ghost use Rattle.weak_maps.specs.Lists.Stretches.{HoldsList};
ghost use Rattle.weak_maps.specs.Lists.Counts.{CountsBlock, CountsField};
ghost use Rattle.weak_maps.specs.Lists.Answers.{ListCountsAt};
ghost use Rattle.weak_maps.specs.Frames.{Leaves};
ghost use Rattle.weak_maps.specs.Lists.Frames.{LeavesAlone};

use crate::digits::width_of;
use crate::emptying::forget_high;
use crate::lists::calls::settle;
use crate::machine::{Machine, perform};
use crate::replies::{is_block, is_empty, is_other_kind};
use model_core::command::Command;
use std::sync::Wait;

// Counts the keys of leaves from a field of the block in a register on, below which there may be so many blocks in a row.
#[cycle(counting)]
fn count_field<M: Machine, R: Wait>(m: &mut M, rt: &R, block: u8, left: u8, index: u16) -> u32
    requires few { (left ≤ 6) × (block < 14 - left) }
    requires alone { (M.sizes m.old).domains ≡ 1 }
    ensures leaves { Leaves M.sizes M.domain M.heap M.front M.labels_left M.ephes_room m.old m.new }
    ensures counted { CountsField (M.sizes m.old) (M.front m.old) (M.front m.new) block left index result }
{
    m.shows_legal();
    let value = 14 - left;
    let at = perform(
        m,
        rt,
        Command::Load {
            dst: value,
            src: block,
            index,
        },
    );
    if !is_block(&at) {
        return 0;
    }
    let key = perform(
        m,
        rt,
        Command::GetKey {
            dst: value,
            ephe: value,
            index: 0,
        },
    );
    if is_other_kind(&key) {
        if left == 0 {
            return 0;
        }
        let count = count_block(m, rt, value, left - 1);
        m.shows_legal();
        return count;
    }
    if is_empty(&key) {
        return 0;
    }
    1
}

// Counts the keys of leaves from the block in a register on, below which there may be so many blocks in a row.
#[cycle(counting)]
fn count_block<M: Machine, R: Wait>(m: &mut M, rt: &R, block: u8, left: u8) -> u32
    requires few { (left ≤ 6) × (block < 14 - left) }
    requires alone { (M.sizes m.old).domains ≡ 1 }
    ensures leaves { Leaves M.sizes M.domain M.heap M.front M.labels_left M.ephes_room m.old m.new }
    ensures counted { CountsBlock (M.sizes m.old) (M.front m.old) (M.front m.new) block left (width_of left) result }
{
    m.shows_legal();
    let mut count: u32 = 0;
    'fields: for index in 0..width_of(left) {
        let more = count_field(m, rt, block, left, index);
        m.shows_legal();
        count = count.saturating_add(more);
    }
    count
}

/// The number of bindings of the map in a register, at some front of the call: the collector may take bindings whose key isn't
/// reached while it goes on. Nothing is written. The register is below 8. Registers below 8 hold what they held, and the others
/// nothing.
pub fn map_count<M: Machine, R: Wait>(m: &mut M, rt: &R, map: u8) -> u32
    requires few { map < 8 }
    requires alone { (M.sizes m.old).domains ≡ 1 }
    requires list { HoldsList (M.sizes m.old) (M.front m.old) map }
    ensures leaves { LeavesAlone M.sizes M.domain M.heap M.front M.labels_left M.ephes_room m.old m.new }
    ensures counts { ListCountsAt (M.sizes m.old) (M.front m.old) (M.front m.new) map result }
{
    m.shows_legal();
    let count = count_block(m, rt, map, 6);
    m.shows_legal();
    forget_high(m, rt);
    m.shows_legal();
    settle(m, rt);
    m.shows_legal();
    count
}
