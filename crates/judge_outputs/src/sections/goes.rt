//! What goes before a line: no more than its answer tells, since what is there still may go later.
ghost use Rattle.std.specs.Prelude.{◌≡◌, OnOk};
ghost use Rattle.table_text.specs.Machine.Machine.{MayGo, TableState};

use crate::texts::machine::Machine;
use crate::texts::places::is_held;
use model_core::label::Label;
use std::alloc::{AllocError, Global};
use table_text::TableLine;
use table_text::machine::LineReply;

// Has a key go, unless a register holds it.
fn lose(machine: &mut Machine, alloc: Global, key: Label) -> Result<(), AllocError>
    ensures { (s : TableState) → MayGo s machine.old → OnOk result (MayGo s machine.new) }
{
    if !is_held(&machine.registers, key) {
        machine.take_out(alloc, key)?;
    }
    Ok(())
}

// The keys that are bound or in slots.
fn weak_keys(alloc: Global, machine: &Machine) -> Result<Vec<Label>, AllocError> {
    let mut keys = Vec::new(alloc);
    for (key, _) in &machine.bindings {
        keys.push(*key)?;
    }
    keys.extend(machine.slots.iter().flatten().copied())?;
    Ok(keys)
}

// Has all keys go that no register holds.
fn lose_unheld(machine: &mut Machine, alloc: Global) -> Result<(), AllocError>
    ensures { OnOk result (MayGo machine.old machine.new) }
{
    let keys = weak_keys(alloc, machine)?;
    for key in &keys {
        lose(machine, alloc, *key)?;
    }
    Ok(())
}

// Has the key of a slot go, unless a register holds it.
fn lose_slot(machine: &mut Machine, alloc: Global, slot: u8) -> Result<(), AllocError>
    ensures { OnOk result (MayGo machine.old machine.new) }
{
    match machine.slot(slot) {
        Some(Some(key)) => lose(machine, alloc, key),
        _ => Ok(()),
    }
}

/// Has keys go that no register holds, as a line and its answer tell.
pub(crate) fn let_go(
    machine: &mut Machine,
    alloc: Global,
    line: TableLine,
    reply: LineReply,
) -> Result<(), AllocError>
    ensures { OnOk result (MayGo machine.old machine.new) }
{
    match (line, reply) {
        (TableLine::GetWeak { slot, .. }, LineReply::Empty) => lose_slot(machine, alloc, slot),
        (TableLine::FullMajor, _) => lose_unheld(machine, alloc),
        _ => Ok(()),
    }
}
