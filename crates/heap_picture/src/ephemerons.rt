//! Ephemerons.
ghost use Rattle.std.specs.Prelude.{◌≡◌, ◌++◌, OnOk, string_bytes};
ghost use Rattle.std.specs.List.{list_any};
ghost use Rattle.heap_picture.specs.Fates.{fate_of, may_empty};
ghost use Rattle.heap_picture.specs.Text.{placed, key_cell, key_arrow, datum_int, datum_word, datum_cell, datum_arrow, weak_head, weak_arrow, strong_arrow, ephemeron_head, ephemeron_node, ephemeron_text};

use crate::blocks::push_fill;
use crate::fates::{Fates, may_go};
use crate::text::{push_red, push_text};
use model_core::graph::Value;
use model_core::label::Label;
use model_core::sequence::Sequence;
use std::alloc::AllocError;
use std::fmt::Write;

// Adds the cell of a key.
fn push_key_cell(out: &mut String, place: usize, key: Option<Label>) -> Result<(), AllocError>
    ensures { OnOk result (string_bytes out.new ≡ string_bytes out.old ++ key_cell place key) }
{
    match key {
        None => write!(out, "|<k{place}> empty key"),
        Some(_) => write!(out, "|<k{place}> key"),
    }
}

// Adds the arrow of a key that is full.
fn push_key_arrow(
    out: &mut String,
    fates: &Fates,
    l: Label,
    place: usize,
    key: Option<Label>,
) -> Result<(), AllocError>
    ensures { OnOk result (string_bytes out.new ≡ string_bytes out.old ++ key_arrow (fate_of fates.now) l place key) }
{
    match key {
        None => Ok(()),
        Some(k) => push_weak_arrow(out, l, place, k, may_go(fates.fate(k))),
    }
}

// Adds the front of the arrow of a key to a block.
fn push_weak_head(out: &mut String, l: Label, place: usize, k: Label) -> Result<(), AllocError>
    ensures { OnOk result (string_bytes out.new ≡ string_bytes out.old ++ weak_head l place k) }
{
    write!(
        out,
        "  \"{}:{}\":k{place} -> \"{}:{}\" [style=dashed",
        l.domain, l.serial, k.domain, k.serial
    )
}

// Adds the arrow of a key to a block.
fn push_weak_arrow(
    out: &mut String,
    l: Label,
    place: usize,
    k: Label,
    goes: bool,
) -> Result<(), AllocError>
    ensures { OnOk result (string_bytes out.new ≡ string_bytes out.old ++ weak_arrow l place k goes) }
{
    push_weak_head(out, l, place, k)?;
    push_red(out, goes)?;
    push_text(out, "];\n")
}

// Adds the cells of keys.
fn push_key_cells(out: &mut String, keys: &Sequence<Option<Label>>) -> Result<(), AllocError>
    ensures { OnOk result (string_bytes out.new ≡ string_bytes out.old ++ placed key_cell 0 keys.now) }
{
    for (place, key) in keys.items.iter().enumerate() {
        push_key_cell(out, place, *key)?;
    }
    Ok(())
}

// Adds the arrows of keys.
fn push_key_arrows(
    out: &mut String,
    fates: &Fates,
    l: Label,
    keys: &Sequence<Option<Label>>,
) -> Result<(), AllocError>
    ensures { OnOk result (string_bytes out.new ≡ string_bytes out.old ++ placed (key_arrow (fate_of fates.now) l) 0 keys.now) }
{
    for (place, key) in keys.items.iter().enumerate() {
        push_key_arrow(out, fates, l, place, *key)?;
    }
    Ok(())
}

// Adds the integer that data is.
fn push_datum_int(out: &mut String, datum: Value) -> Result<(), AllocError>
    ensures { OnOk result (string_bytes out.new ≡ string_bytes out.old ++ datum_int datum) }
{
    match datum {
        Value::Int(z) => write!(out, " = {z}"),
        Value::Block(_) | Value::Nothing => Ok(()),
    }
}

// Adds what is said of any data.
fn push_datum_word(out: &mut String, datum: Value) -> Result<(), AllocError>
    ensures { OnOk result (string_bytes out.new ≡ string_bytes out.old ++ datum_word datum) }
{
    match datum {
        Value::Int(_) | Value::Block(_) => push_text(out, "|<d> data"),
        Value::Nothing => push_text(out, "|<d> no data"),
    }
}

// Adds the cell of the data.
fn push_datum_cell(out: &mut String, datum: Value) -> Result<(), AllocError>
    ensures { OnOk result (string_bytes out.new ≡ string_bytes out.old ++ datum_cell datum) }
{
    push_datum_word(out, datum)?;
    push_datum_int(out, datum)
}

// Adds the arrow of data that is a block.
fn push_datum_arrow(out: &mut String, l: Label, goes: bool, datum: Value) -> Result<(), AllocError>
    ensures { OnOk result (string_bytes out.new ≡ string_bytes out.old ++ datum_arrow l goes datum) }
{
    match datum {
        Value::Block(to) => push_strong_arrow(out, l, to, goes),
        Value::Int(_) | Value::Nothing => Ok(()),
    }
}

// Adds the arrow of the data to a block.
fn push_strong_arrow(out: &mut String, l: Label, to: Label, goes: bool) -> Result<(), AllocError>
    ensures { OnOk result (string_bytes out.new ≡ string_bytes out.old ++ strong_arrow l to goes) }
{
    write!(
        out,
        "  \"{}:{}\":d -> \"{}:{}\" [arrowhead=onormal",
        l.domain, l.serial, to.domain, to.serial
    )?;
    push_red(out, goes)?;
    push_text(out, "];\n")
}

// Whether a key is full and may be emptied.
fn has_key_that_goes(fates: &Fates, keys: &Sequence<Option<Label>>) -> bool
    ensures { result ≡ list_any (may_empty (fate_of fates.now)) keys.now }
{
    keys.items.iter().any(|key| fates.may_empty(*key))
}

// Adds the front of an ephemeron.
fn push_ephemeron_head(out: &mut String, l: Label) -> Result<(), AllocError>
    ensures { OnOk result (string_bytes out.new ≡ string_bytes out.old ++ ephemeron_head l) }
{
    write!(
        out,
        "  \"{}:{}\" [shape=Mrecord, label=\"{}:{} ephemeron",
        l.domain, l.serial, l.domain, l.serial
    )
}

// Adds the node of an ephemeron.
fn push_ephemeron_node(
    out: &mut String,
    fates: &Fates,
    l: Label,
    keys: &Sequence<Option<Label>>,
    datum: Value,
) -> Result<(), AllocError>
    ensures { OnOk result (string_bytes out.new ≡ string_bytes out.old ++ ephemeron_node (fate_of fates.now) l keys.now datum) }
{
    push_ephemeron_head(out, l)?;
    push_key_cells(out, keys)?;
    push_datum_cell(out, datum)?;
    push_text(out, "\"")?;
    push_fill(out, fates.fate(l))?;
    push_text(out, "];\n")
}

// Adds an ephemeron.
pub(crate) fn push_ephemeron(
    out: &mut String,
    fates: &Fates,
    l: Label,
    keys: &Sequence<Option<Label>>,
    datum: Value,
) -> Result<(), AllocError>
    ensures { OnOk result (string_bytes out.new ≡ string_bytes out.old ++ ephemeron_text (fate_of fates.now) l keys.now datum) }
{
    push_ephemeron_node(out, fates, l, keys, datum)?;
    push_key_arrows(out, fates, l, keys)?;
    push_datum_arrow(out, l, has_key_that_goes(fates, keys), datum)
}
