//! Tables and weak arrays that are made.
ghost use Rattle.std.specs.Prelude.{◌≡◌, ◌+◌, ◌<◌, ◌≤◌, List, cond};
ghost use Rattle.model_core.specs.declared.entry.Entry.{Entry};
ghost use Rattle.model_core.specs.declared.label.Label as labels;
ghost use Rattle.weak_laws.specs.Tables.Performing.{refusals, full_of};
ghost use Rattle.weak_tables.specs.Frames.{Spends};
ghost use Rattle.weak_tables.specs.Walks.{Filled, Fills};
ghost use Rattle.weak_tables.specs.Tables.{MakeAnswers};
ghost use Rattle.weak_tables.specs.Arrays.{ArrayAnswers};

use crate::machine::{CELL, EPHE, Machine, perform, perform_plain, store};
use crate::replies::is_full;
use crate::taking::clear;
use model_core::command::Command;
use model_core::reply::Reply;
use std::sync::Wait;

// The registers of the array in the making, and of the ephemeron of its next slot.
const ARRAY: u8 = EPHE;

const SLOT: u8 = CELL;

/// Makes a table, into a register below 8. It binds nothing. Answers its block, or `full` where the allocation was refused:
/// then the register is as before. One label is left.
pub fn table_make<M: Machine, R: Wait>(m: &mut M, rt: &R, dst: u8) -> Reply
    requires few { dst < 8 }
    requires labels { 1 ≤ M.labels_left m.old }
    ensures sizes { M.sizes m.new ≡ M.sizes m.old }
    ensures labels { M.labels_left m.old + full_of result ≡ M.labels_left m.new + 1 }
    ensures room { M.ephes_room m.old ≤ M.ephes_room m.new }
    ensures refused { refusals (M.front m.new) ≡ refusals (M.front m.old) + full_of result }
    ensures made { MakeAnswers (M.sizes m.old) (M.front m.old) (M.front m.new) dst result }
{
    m.shows_legal();
    perform(
        m,
        rt,
        Command::Alloc {
            dst,
            tag: 0,
            fields: 64,
        },
    )
}

// Fills the fields of the block in register 8 with new ephemerons, which go through register 9. Tells whether no allocation
// was refused.
fn fill<M: Machine, R: Wait>(m: &mut M, rt: &R, slots: u16) -> bool
    requires labels { slots ≤ M.labels_left m.old }
    requires room { slots ≤ M.ephes_room m.old }
    ensures spends { Spends M.sizes M.labels_left M.ephes_room slots slots m.old m.new }
    ensures refused { refusals (M.front m.new) ≡ refusals (M.front m.old) + cond result 0 1 }
    ensures fills { (first : List Entry) (root : labels.Label) → Filled (M.sizes m.old) first (M.front m.old) root 0 slots → Fills (M.sizes m.old) first (M.front m.new) root slots result }
{
    m.shows_legal();
    'slots: for index in 0..slots {
        let ephe = perform(m, rt, Command::Ephe { dst: SLOT, keys: 1 });
        if is_full(&ephe) {
            return false;
        }
        let _stored = store(m, rt, ARRAY, index, SLOT);
    }
    true
}

/// Makes a weak array of 1 to 1022 slots, all empty, into a register below 8. Answers its block, or `full` where one of its
/// allocations was refused: then the register is as before. A label for the block and one for each slot are left, and room
/// for as many ephemerons as slots. Registers 8, 9 and 10 hold nothing afterwards.
pub fn weak_make<M: Machine, R: Wait>(m: &mut M, rt: &R, dst: u8, slots: u16) -> Reply
    requires few { dst < 8 }
    requires slots { (1 ≤ slots) × (slots ≤ 1022) }
    requires labels { slots + 1 ≤ M.labels_left m.old }
    requires room { slots ≤ M.ephes_room m.old }
    ensures spends { Spends M.sizes M.labels_left M.ephes_room (slots + 1) slots m.old m.new }
    ensures refused { refusals (M.front m.new) ≡ refusals (M.front m.old) + full_of result }
    ensures made { ArrayAnswers (M.sizes m.old) (M.front m.old) (M.front m.new) dst slots result }
{
    m.shows_legal();
    let root = perform(
        m,
        rt,
        Command::Alloc {
            dst: ARRAY,
            tag: 0,
            fields: slots,
        },
    );
    if is_full(&root) {
        clear(m, rt);
        return Reply::Full;
    }
    if !fill(m, rt, slots) {
        clear(m, rt);
        return Reply::Full;
    }
    let _moved = perform_plain(m, rt, Command::Copy { dst, src: ARRAY });
    clear(m, rt);
    root
}
