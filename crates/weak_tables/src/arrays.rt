//! Weak arrays.
ghost use Rattle.std.specs.Prelude.{◌≡◌, ◌+◌, ◌<◌, ◌≤◌};
ghost use Rattle.weak_laws.specs.Tables.Performing.{refusals, full_of, writings, is_spared};
ghost use Rattle.weak_tables.specs.Frames.{Keeps};
ghost use Rattle.weak_tables.specs.Held.{HoldsArray};
ghost use Rattle.weak_tables.specs.Arrays.{SlotReadAt, SlotSetAt};

use crate::machine::{EPHE, Machine, load, perform_plain};
use crate::replies::is_past;
use crate::taking::clear;
use model_core::command::Command;
use model_core::reply::Reply;
use std::sync::Wait;

/// Reads a slot of the weak array in a register into another. Answers `bounds` exactly where there is no such slot, `none`
/// exactly where it is empty when it is read, and then the other register holds nothing, and else its block. Registers are
/// below 8. Registers 8, 9 and 10 hold nothing afterwards, but for `bounds`, which leaves them.
pub fn weak_get<M: Machine, R: Wait>(m: &mut M, rt: &R, dst: u8, array: u8, index: u16) -> Reply
    requires few { (dst < 8) × (array < 8) }
    requires array { HoldsArray (M.sizes m.old) (M.front m.old) array }
    ensures keeps { Keeps M.sizes M.labels_left M.ephes_room m.old m.new }
    ensures refused { refusals (M.front m.new) ≡ refusals (M.front m.old) + full_of result }
    ensures written { writings (M.front m.new) ≤ writings (M.front m.old) + is_spared dst }
    ensures answer { SlotReadAt (M.sizes m.old) (M.front m.old) (M.front m.new) dst array index result }
{
    m.shows_legal();
    let slot = load(m, rt, EPHE, array, index);
    if is_past(&slot) {
        return Reply::BadIndex;
    }
    let reply = perform_plain(
        m,
        rt,
        Command::GetKey {
            dst,
            ephe: EPHE,
            index: 0,
        },
    );
    clear(m, rt);
    reply
}

/// Sets a slot of the weak array in a register to the block in another. Answers `bounds` exactly where there is no such slot,
/// then `type` exactly where the other register holds no block, and else that it is done. Registers are below 8. Registers 8,
/// 9 and 10 hold nothing afterwards, but for `bounds`, which leaves them.
pub fn weak_set<M: Machine, R: Wait>(m: &mut M, rt: &R, array: u8, index: u16, item: u8) -> Reply
    requires few { (array < 8) × (item < 8) }
    requires array { HoldsArray (M.sizes m.old) (M.front m.old) array }
    ensures keeps { Keeps M.sizes M.labels_left M.ephes_room m.old m.new }
    ensures refused { refusals (M.front m.new) ≡ refusals (M.front m.old) + full_of result }
    ensures written { writings (M.front m.new) ≡ writings (M.front m.old) }
    ensures answer { SlotSetAt (M.sizes m.old) (M.front m.old) (M.front m.new) array index item result }
{
    m.shows_legal();
    let slot = load(m, rt, EPHE, array, index);
    if is_past(&slot) {
        return Reply::BadIndex;
    }
    let reply = perform_plain(
        m,
        rt,
        Command::SetKey {
            ephe: EPHE,
            index: 0,
            item,
        },
    );
    clear(m, rt);
    reply
}
