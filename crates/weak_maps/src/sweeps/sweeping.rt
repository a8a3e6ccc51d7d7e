//! Maps that are swept while other domains use them.
ghost use Rattle.std.specs.Prelude.{◌≡◌, ◌-◌, ◌<◌, ◌≤◌, true, ◌↔◌};
ghost use Rattle.weak_maps.specs.Cleans.{width_of};
ghost use Rattle.weak_maps.specs.Sweeps.Sweeps.{Exchanged, Peeks, Settled, SweepReturns, SweepsBlock, SweepsField};
ghost use Rattle.weak_maps.specs.declared.sweeps.sweeping.Held.TheVariants.{Dead, Inner};
ghost use Rattle.weak_maps.specs.Frames.{Leaves};

use crate::digits::width_of;
use crate::emptying::forget_high;
use crate::machine::{Machine, perform};
use crate::replies::{is_block, is_empty};
use model_core::command::Command;
use model_core::reply::Reply;
use std::sync::Wait;

/// What a field of a map holds.
#[derive(Clone, Copy, Debug, PartialEq, Eq)]
pub enum Held {
    /// 0.
    Free,
    /// A leaf that has its key.
    Live,
    /// A leaf that has lost its key.
    Dead,
    /// An inner block.
    Inner,
}

// Whether it is a leaf that has lost its key.
fn is_dead(held: Held) -> bool
    ensures { (result ≡ true) ↔ (held ≡ Dead) }
{
    matches!(held, Held::Dead)
}

// Whether it is an inner block.
fn is_inner(held: Held) -> bool
    ensures { (result ≡ true) ↔ (held ≡ Inner) }
{
    matches!(held, Held::Inner)
}

// Reads a field of the block in a register into another. Register 15 holds the key of a leaf that it met.
fn peek<M: Machine, R: Wait>(m: &mut M, rt: &R, block: u8, value: u8, index: u16) -> Held
    requires few { (8 ≤ value) × (value < 15) × (block < value) }
    ensures leaves { Leaves M.sizes M.domain M.heap M.front M.labels_left M.ephes_room m.old m.new }
    ensures peeked { Peeks (M.sizes m.old) (M.domain m.old) (M.front m.old) (M.front m.new) block value index result }
{
    let at = perform(
        m,
        rt,
        Command::Load {
            dst: value,
            src: block,
            index,
        },
    );
    if !is_block(&at) {
        return Held::Free;
    }
    let key = perform(
        m,
        rt,
        Command::GetKey {
            dst: 15,
            ephe: value,
            index: 0,
        },
    );
    match key {
        Reply::BadType => Held::Inner,
        Reply::Empty => Held::Dead,
        _ => Held::Live,
    }
}

// Puts 0 into a field of the block in a register, where it holds what another register holds. Tells whether it did.
fn exchange<M: Machine, R: Wait>(m: &mut M, rt: &R, block: u8, value: u8, index: u16) -> bool
    requires few { (8 ≤ value) × (value < 15) × (block < value) }
    ensures leaves { Leaves M.sizes M.domain M.heap M.front M.labels_left M.ephes_room m.old m.new }
    ensures exchanged { Exchanged (M.sizes m.old) (M.domain m.old) (M.front m.old) (M.front m.new) block value index result }
{
    let _zero = perform(m, rt, Command::PutInt { dst: 15, value: 0 });
    let won = perform(
        m,
        rt,
        Command::Cas {
            block,
            index,
            expected: value,
            item: 15,
        },
    );
    matches!(won, Reply::Yes)
}

// Takes a dead leaf out of a field of the block in a register. Tells whether the field holds an inner block, which another
// register holds then. Where another call wrote the field first, it is read once more: a leaf that came there since is none
// that was dead before.
fn settle<M: Machine, R: Wait>(m: &mut M, rt: &R, block: u8, left: u8, index: u16) -> bool
    requires few { (left ≤ 6) × (block < 14 - left) }
    ensures leaves { Leaves M.sizes M.domain M.heap M.front M.labels_left M.ephes_room m.old m.new }
    ensures settled { Settled (M.sizes m.old) (M.domain m.old) (M.front m.old) (M.front m.new) block left index result }
{
    m.shows_legal();
    let value = 14 - left;
    let held = peek(m, rt, block, value, index);
    if !is_dead(held) {
        return is_inner(held);
    }
    if exchange(m, rt, block, value, index) {
        return false;
    }
    let again = peek(m, rt, block, value, index);
    is_inner(again)
}

// Sweeps a field of the block in a register, below which there may be so many blocks in a row, and what stands below the
// field.
#[cycle(sweeping)]
fn sweep_field<M: Machine, R: Wait>(m: &mut M, rt: &R, block: u8, left: u8, index: u16)
    requires few { (left ≤ 6) × (block < 14 - left) }
    ensures leaves { Leaves M.sizes M.domain M.heap M.front M.labels_left M.ephes_room m.old m.new }
    ensures swept { SweepsField (M.sizes m.old) (M.domain m.old) (M.front m.old) (M.front m.new) block left index }
{
    let inner = settle(m, rt, block, left, index);
    if !inner {
        return;
    }
    if left == 0 {
        return;
    }
    sweep_block(m, rt, 14 - left, left - 1);
}

// Sweeps the block in a register, below which there may be so many blocks in a row, and what stands below it.
#[cycle(sweeping)]
fn sweep_block<M: Machine, R: Wait>(m: &mut M, rt: &R, block: u8, left: u8)
    requires few { (left ≤ 6) × (block < 14 - left) }
    ensures leaves { Leaves M.sizes M.domain M.heap M.front M.labels_left M.ephes_room m.old m.new }
    ensures swept { SweepsBlock (M.sizes m.old) (M.domain m.old) (M.front m.old) (M.front m.new) block left (width_of left) }
{
    m.shows_legal();
    'fields: for index in 0..width_of(left) {
        sweep_field(m, rt, block, left, index);
    }
}

/// Sweeps the map in a register, which other domains may use meanwhile by its calls: each leaf that had lost its key when the
/// call began stands in the map no more. Each is taken out by one compare-and-set, and nothing else is written: no binding
/// changes, no leaf goes that has its key or that was put since, and inner blocks stay. Nothing is made. Where another call wins a field, it is read once more, and no more: a field takes six
/// commands at most. Registers are below 8. Registers 8 to 15 hold nothing afterwards.
pub fn map_sweep<M: Machine, R: Wait>(m: &mut M, rt: &R, map: u8)
    requires few { map < 8 }
    ensures leaves { Leaves M.sizes M.domain M.heap M.front M.labels_left M.ephes_room m.old m.new }
    ensures swept { SweepReturns (M.sizes m.old) (M.domain m.old) (M.front m.old) (M.front m.new) map }
{
    m.shows_legal();
    sweep_block(m, rt, map, 6);
    forget_high(m, rt);
}
