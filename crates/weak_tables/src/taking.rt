//! Bindings that are taken out.
ghost use Rattle.std.specs.Prelude.{◌≡◌, ◌+◌, ◌<◌, ◌≤◌};
ghost use Rattle.model_core.specs.declared.graph.Value.TheVariants.{Block};
ghost use Rattle.weak_laws.specs.Tables.Performing.{refusals, full_of, writings};
ghost use Rattle.weak_tables.specs.Frames.{Keeps, Passes};
ghost use Rattle.weak_tables.specs.Held.{Cleared, HoldsTable};
ghost use Rattle.weak_tables.specs.Tables.{TakesAt};

use crate::machine::{CELL, EPHE, LOOKED, Machine, perform_between};
use crate::searching::look_up;
use model_core::command::Command;
use model_core::reply::Reply;
use std::sync::Wait;

// Empties the registers that the calls use between.
pub(crate) fn clear<M: Machine, R: Wait>(m: &mut M, rt: &R)
    ensures passes { Passes M.sizes M.front M.labels_left M.ephes_room m.old m.new }
    ensures cleared { Cleared (M.sizes m.old) (M.front m.old) (M.front m.new) }
{
    m.shows_legal();
    let _eight = perform_between(m, rt, Command::Forget { dst: EPHE });
    let _nine = perform_between(m, rt, Command::Forget { dst: CELL });
    let _ten = perform_between(m, rt, Command::Forget { dst: LOOKED });
}

/// Takes the binding of the key in a register out of the table in another. Answers `type` exactly where the register holds
/// no label, `none` exactly where the key isn't bound, and else that it is done: then the table binds what it bound, without
/// this key. The collector may take bindings whose key isn't reached. Registers are below 8. Registers 8, 9 and 10 hold
/// nothing afterwards, but after `type`, which leaves all as it was.
pub fn table_take<M: Machine, R: Wait>(m: &mut M, rt: &R, table: u8, key: u8) -> Reply
    requires few { (table < 8) × (key < 8) }
    requires table { HoldsTable (M.sizes m.old) (M.front m.old) table }
    ensures keeps { Keeps M.sizes M.labels_left M.ephes_room m.old m.new }
    ensures refused { refusals (M.front m.new) ≡ refusals (M.front m.old) + full_of result }
    ensures written { writings (M.front m.new) ≡ writings (M.front m.old) }
    ensures answer { TakesAt (M.sizes m.old) (M.front m.old) (M.front m.new) table key result }
{
    m.shows_legal();
    let Reply::Block(label) = m.show(key) else {
        return Reply::BadType;
    };
    if !look_up(m, rt, table, key, &label) {
        clear(m, rt);
        return Reply::Empty;
    }
    let _key = perform_between(
        m,
        rt,
        Command::UnsetKey {
            ephe: EPHE,
            index: 0,
        },
    );
    let _datum = perform_between(m, rt, Command::UnsetData { ephe: EPHE });
    clear(m, rt);
    Reply::Done
}
