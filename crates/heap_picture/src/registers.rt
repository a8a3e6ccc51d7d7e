//! The registers of a domain, and its finalisers.
ghost use Rattle.std.specs.Prelude.{◌≡◌, ◌++◌, OnOk, string_bytes};
ghost use Rattle.heap_picture.specs.Text.{placed, shown_cell, shown_arrow, is_shared as is_shared_block, register_cell, register_arrow, registers_text, final_note, final_arrow, final_text, last_note, last_arrow, last_text, pending_cell, pending_arrow, queue_node, full_queue_text, queue_text};
ghost use Rattle.heap_picture.specs.Fates.{fate_of};

use crate::fates::{Fates, may_go, may_run};
use crate::text::{push_red, push_text};
use model_core::graph::Value;
use model_core::label::Label;
use model_core::sequence::Sequence;
use model_core::state::{Finaliser, LastFinaliser, Pending};
use std::alloc::AllocError;
use std::fmt::Write;

// Adds the cell of a register that holds something.
fn push_shown_cell(out: &mut String, place: usize, value: Value) -> Result<(), AllocError>
    ensures { OnOk result (string_bytes out.new ≡ string_bytes out.old ++ shown_cell place value) }
{
    match value {
        Value::Int(z) => write!(out, "|<r{place}> register {place} = {z}"),
        Value::Block(_) => write!(out, "|<r{place}> register {place}"),
        Value::Nothing => Ok(()),
    }
}

// Adds the arrow of a register that holds a block.
fn push_shown_arrow(out: &mut String, place: usize, value: Value) -> Result<(), AllocError>
    ensures { OnOk result (string_bytes out.new ≡ string_bytes out.old ++ shown_arrow place value) }
{
    match value {
        Value::Block(l) => write!(
            out,
            "  registers:r{place} -> \"{}:{}\";\n",
            l.domain, l.serial
        ),
        Value::Int(_) | Value::Nothing => Ok(()),
    }
}

// Whether a value is the shared block.
fn is_shared(value: Value) -> bool
    ensures { result ≡ is_shared_block value }
{
    match value {
        Value::Block(l) => l.domain == 0 && l.serial == 0,
        Value::Int(_) | Value::Nothing => false,
    }
}

// Adds the cell of a register, unless it isn't drawn.
fn push_register_cell(
    out: &mut String,
    hides: bool,
    place: usize,
    value: Value,
) -> Result<(), AllocError>
    ensures { OnOk result (string_bytes out.new ≡ string_bytes out.old ++ register_cell hides place value) }
{
    if hides && is_shared(value) {
        Ok(())
    } else {
        push_shown_cell(out, place, value)
    }
}

// Adds the arrow of a register, unless it isn't drawn.
fn push_register_arrow(
    out: &mut String,
    hides: bool,
    place: usize,
    value: Value,
) -> Result<(), AllocError>
    ensures { OnOk result (string_bytes out.new ≡ string_bytes out.old ++ register_arrow hides place value) }
{
    if hides && is_shared(value) {
        Ok(())
    } else {
        push_shown_arrow(out, place, value)
    }
}

// Adds the cells of the registers.
fn push_register_cells(
    out: &mut String,
    hides: bool,
    values: &Sequence<Value>,
) -> Result<(), AllocError>
    ensures { OnOk result (string_bytes out.new ≡ string_bytes out.old ++ placed (register_cell hides) 0 values.now) }
{
    for (place, value) in values.items.iter().enumerate() {
        push_register_cell(out, hides, place, *value)?;
    }
    Ok(())
}

// Adds the arrows of the registers.
fn push_register_arrows(
    out: &mut String,
    hides: bool,
    values: &Sequence<Value>,
) -> Result<(), AllocError>
    ensures { OnOk result (string_bytes out.new ≡ string_bytes out.old ++ placed (register_arrow hides) 0 values.now) }
{
    for (place, value) in values.items.iter().enumerate() {
        push_register_arrow(out, hides, place, *value)?;
    }
    Ok(())
}

// Adds the registers. Those that hold the shared block are left out where it isn't drawn.
pub(crate) fn push_registers(
    out: &mut String,
    hides: bool,
    values: &Sequence<Value>,
) -> Result<(), AllocError>
    ensures { OnOk result (string_bytes out.new ≡ string_bytes out.old ++ registers_text hides values.now) }
{
    push_text(out, "  registers [label=\"registers")?;
    push_register_cells(out, hides, values)?;
    push_text(out, "\"];\n")?;
    push_register_arrows(out, hides, values)
}

// Adds the note of a registration of `finalise`.
fn push_final_note(out: &mut String, place: usize, f: Finaliser) -> Result<(), AllocError>
    ensures { OnOk result (string_bytes out.new ≡ string_bytes out.old ++ final_note place f) }
{
    write!(
        out,
        "  finalise{place} [shape=note, label=\"finalise {} into register {}\"];\n",
        f.number, f.register
    )
}

// Adds the front of the arrow of a registration of `finalise`.
fn push_final_arrow(out: &mut String, place: usize, l: Label) -> Result<(), AllocError>
    ensures { OnOk result (string_bytes out.new ≡ string_bytes out.old ++ final_arrow place l) }
{
    write!(out, "  finalise{place} -> \"{}:{}\"", l.domain, l.serial)
}

// Adds a registration of `finalise`.
fn push_final(out: &mut String, fates: &Fates, place: usize, f: Finaliser) -> Result<(), AllocError>
    ensures { OnOk result (string_bytes out.new ≡ string_bytes out.old ++ final_text (fate_of fates.now) place f) }
{
    push_final_note(out, place, f)?;
    push_final_arrow(out, place, f.label)?;
    push_text(out, " [style=dotted")?;
    push_red(out, may_run(fates.fate(f.label)))?;
    push_text(out, "];\n")
}

// Adds the registrations of `finalise`.
pub(crate) fn push_finals(
    out: &mut String,
    fates: &Fates,
    finals: &Sequence<Finaliser>,
) -> Result<(), AllocError>
    ensures { OnOk result (string_bytes out.new ≡ string_bytes out.old ++ placed (final_text (fate_of fates.now)) 0 finals.now) }
{
    for (place, f) in finals.items.iter().enumerate() {
        push_final(out, fates, place, *f)?;
    }
    Ok(())
}

// Adds the note of a registration of `finalise_last`.
fn push_last_note(out: &mut String, place: usize, f: LastFinaliser) -> Result<(), AllocError>
    ensures { OnOk result (string_bytes out.new ≡ string_bytes out.old ++ last_note place f) }
{
    write!(
        out,
        "  last{place} [shape=note, label=\"finalise_last {}\"];\n",
        f.number
    )
}

// Adds the front of the arrow of a registration of `finalise_last`.
fn push_last_arrow(out: &mut String, place: usize, l: Label) -> Result<(), AllocError>
    ensures { OnOk result (string_bytes out.new ≡ string_bytes out.old ++ last_arrow place l) }
{
    write!(out, "  last{place} -> \"{}:{}\"", l.domain, l.serial)
}

// Adds a registration of `finalise_last`.
fn push_last(
    out: &mut String,
    fates: &Fates,
    place: usize,
    f: LastFinaliser,
) -> Result<(), AllocError>
    ensures { OnOk result (string_bytes out.new ≡ string_bytes out.old ++ last_text (fate_of fates.now) place f) }
{
    push_last_note(out, place, f)?;
    push_last_arrow(out, place, f.label)?;
    push_text(out, " [style=dotted")?;
    push_red(out, may_go(fates.fate(f.label)))?;
    push_text(out, "];\n")
}

// Adds the registrations of `finalise_last`.
pub(crate) fn push_lasts(
    out: &mut String,
    fates: &Fates,
    lasts: &Sequence<LastFinaliser>,
) -> Result<(), AllocError>
    ensures { OnOk result (string_bytes out.new ≡ string_bytes out.old ++ placed (last_text (fate_of fates.now)) 0 lasts.now) }
{
    for (place, f) in lasts.items.iter().enumerate() {
        push_last(out, fates, place, *f)?;
    }
    Ok(())
}

// Adds the cell of a queued finaliser.
fn push_pending_cell(out: &mut String, place: usize, pending: Pending) -> Result<(), AllocError>
    ensures { OnOk result (string_bytes out.new ≡ string_bytes out.old ++ pending_cell place pending) }
{
    match pending {
        Pending::Fin {
            number,
            register,
            ..
        } => write!(
            out,
            "|<q{place}> finalise {number} into register {register}"
        ),
        Pending::Last { number } => write!(out, "|<q{place}> finalise_last {number}"),
    }
}

// Adds the arrow of a queued finaliser that keeps its block alive.
fn push_pending_arrow(out: &mut String, place: usize, pending: Pending) -> Result<(), AllocError>
    ensures { OnOk result (string_bytes out.new ≡ string_bytes out.old ++ pending_arrow place pending) }
{
    match pending {
        Pending::Fin { label, .. } => write!(
            out,
            "  queue:q{place} -> \"{}:{}\";\n",
            label.domain, label.serial
        ),
        Pending::Last { .. } => Ok(()),
    }
}

// Adds the cells of the queue.
fn push_pending_cells(out: &mut String, queue: &Sequence<Pending>) -> Result<(), AllocError>
    ensures { OnOk result (string_bytes out.new ≡ string_bytes out.old ++ placed pending_cell 0 queue.now) }
{
    for (place, pending) in queue.items.iter().enumerate() {
        push_pending_cell(out, place, *pending)?;
    }
    Ok(())
}

// Adds the arrows of the queue.
fn push_pending_arrows(out: &mut String, queue: &Sequence<Pending>) -> Result<(), AllocError>
    ensures { OnOk result (string_bytes out.new ≡ string_bytes out.old ++ placed pending_arrow 0 queue.now) }
{
    for (place, pending) in queue.items.iter().enumerate() {
        push_pending_arrow(out, place, *pending)?;
    }
    Ok(())
}

// Adds the node of the queue.
fn push_queue_node(out: &mut String, queue: &Sequence<Pending>) -> Result<(), AllocError>
    ensures { OnOk result (string_bytes out.new ≡ string_bytes out.old ++ queue_node queue.now) }
{
    push_text(out, "  queue [label=\"queue")?;
    push_pending_cells(out, queue)?;
    push_text(out, "\"];\n")
}

// Adds the queue with its arrows.
fn push_full_queue(out: &mut String, queue: &Sequence<Pending>) -> Result<(), AllocError>
    ensures { OnOk result (string_bytes out.new ≡ string_bytes out.old ++ full_queue_text queue.now) }
{
    push_queue_node(out, queue)?;
    push_pending_arrows(out, queue)
}

// Adds the queue, where it isn't empty.
pub(crate) fn push_queue(out: &mut String, queue: &Sequence<Pending>) -> Result<(), AllocError>
    ensures { OnOk result (string_bytes out.new ≡ string_bytes out.old ++ queue_text queue.now) }
{
    if queue.items.is_empty() {
        Ok(())
    } else {
        push_full_queue(out, queue)
    }
}
