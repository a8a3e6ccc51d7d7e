//! The blocks of the graph.
ghost use Rattle.std.specs.Prelude.{◌≡◌, ◌++◌, OnOk, flat_map, pos, string_bytes};
ghost use Rattle.model_core.specs.Commands.{same_value};
ghost use Rattle.heap_picture.specs.Fates.{fate_of};
ghost use Rattle.heap_picture.specs.Text.{placed, fill, field_cell, field_arrow, are_zeros as has_zeros, is_blank as has_blanks, cells_where, fields_head, fields_text, is_bare as is_bare_block, hides_shared as hides_shared_in, node_text, block_text};

use crate::ephemerons::push_ephemeron;
use crate::fates::{Fate, Fates};
use crate::text::push_text;
use model_core::graph::{Node, Value};
use model_core::label::Label;
use model_core::sequence::Sequence;
use std::alloc::AllocError;
use std::fmt::Write;

// Adds the attributes that show a block's fate.
pub(crate) fn push_fill(out: &mut String, fate: Fate) -> Result<(), AllocError>
    ensures { OnOk result (string_bytes out.new ≡ string_bytes out.old ++ fill fate) }
{
    match fate {
        Fate::Kept => Ok(()),
        Fate::MayReturn => push_text(out, ", fillcolor=gray90"),
        Fate::MayGo => push_text(out, ", fillcolor=gray75, style=\"filled,dashed\""),
    }
}

// Adds the cell of a field.
fn push_field_cell(out: &mut String, place: usize, value: Value) -> Result<(), AllocError>
    ensures { OnOk result (string_bytes out.new ≡ string_bytes out.old ++ field_cell place value) }
{
    match value {
        Value::Int(z) => write!(out, "|<f{place}> {z}"),
        Value::Block(_) => write!(out, "|<f{place}> "),
        Value::Nothing => write!(out, "|<f{place}> empty"),
    }
}

// Adds the arrow of a field that holds a block.
fn push_field_arrow(
    out: &mut String,
    l: Label,
    place: usize,
    value: Value,
) -> Result<(), AllocError>
    ensures { OnOk result (string_bytes out.new ≡ string_bytes out.old ++ field_arrow l place value) }
{
    match value {
        Value::Block(to) => write!(
            out,
            "  \"{}:{}\":f{place} -> \"{}:{}\";\n",
            l.domain, l.serial, to.domain, to.serial
        ),
        Value::Int(_) | Value::Nothing => Ok(()),
    }
}

// Adds the cells of fields.
fn push_field_cells(out: &mut String, fields: &Sequence<Value>) -> Result<(), AllocError>
    ensures { OnOk result (string_bytes out.new ≡ string_bytes out.old ++ placed field_cell 0 fields.now) }
{
    for (place, value) in fields.items.iter().enumerate() {
        push_field_cell(out, place, *value)?;
    }
    Ok(())
}

// Adds the arrows of fields.
fn push_field_arrows(out: &mut String, l: Label, fields: &Sequence<Value>) -> Result<(), AllocError>
    ensures { OnOk result (string_bytes out.new ≡ string_bytes out.old ++ placed (field_arrow l) 0 fields.now) }
{
    for (place, value) in fields.items.iter().enumerate() {
        push_field_arrow(out, l, place, *value)?;
    }
    Ok(())
}

// Whether a value is the integer 0.
fn is_zero(value: Value) -> bool
    ensures { result ≡ same_value value (Value.Int (pos 0)) }
{
    match value {
        Value::Int(z) => z == 0,
        Value::Block(_) | Value::Nothing => false,
    }
}

// Whether each field holds 0.
fn are_zeros(fields: &Sequence<Value>) -> bool
    ensures { result ≡ has_zeros fields.now }
{
    fields.items.iter().all(|v| is_zero(*v))
}

// Whether there are more than four fields, each of which holds 0.
fn is_blank(fields: &Sequence<Value>) -> bool
    ensures { result ≡ has_blanks fields.now }
{
    4 < fields.items.len() && are_zeros(fields)
}

// Adds the cells of fields, or one for all where they are blank.
fn push_cells(out: &mut String, is_blank: bool, fields: &Sequence<Value>) -> Result<(), AllocError>
    ensures { OnOk result (string_bytes out.new ≡ string_bytes out.old ++ cells_where is_blank fields.now) }
{
    if is_blank {
        write!(out, "|{} fields of 0", fields.items.len())
    } else {
        push_field_cells(out, fields)
    }
}

// Adds the front of a block of fields.
fn push_fields_head(out: &mut String, l: Label) -> Result<(), AllocError>
    ensures { OnOk result (string_bytes out.new ≡ string_bytes out.old ++ fields_head l) }
{
    write!(
        out,
        "  \"{}:{}\" [label=\"{}:{}",
        l.domain, l.serial, l.domain, l.serial
    )
}

// Adds a block of fields, with a word for its kind.
fn push_fields(
    out: &mut String,
    fate: Fate,
    l: Label,
    kind: &str,
    fields: &Sequence<Value>,
) -> Result<(), AllocError>
    ensures { OnOk result (string_bytes out.new ≡ string_bytes out.old ++ fields_text fate l kind.now fields.now) }
{
    push_fields_head(out, l)?;
    push_text(out, kind)?;
    push_cells(out, is_blank(fields), fields)?;
    push_text(out, "\"")?;
    push_fill(out, fate)?;
    push_text(out, "];\n")?;
    push_field_arrows(out, l, fields)
}

// Whether a block is the shared one, while all its fields hold 0.
fn is_bare(l: Label, node: &Node) -> bool
    ensures { result ≡ is_bare_block l node.now }
{
    match node {
        Node::Plain { fields, .. } => l.domain == 0 && l.serial == 0 && are_zeros(fields),
        Node::Raw { .. } | Node::Ephe { .. } => false,
    }
}

// Whether the shared block, and the registers that hold it, aren't drawn.
pub(crate) fn hides_shared(graph: &Sequence<(Label, Node)>) -> bool
    ensures { result ≡ hides_shared_in graph.now }
{
    match graph.items.first() {
        Some(block) => is_bare(block.0, &block.1),
        None => false,
    }
}

// Adds a block that is drawn.
fn push_node(out: &mut String, fates: &Fates, l: Label, node: &Node) -> Result<(), AllocError>
    ensures { OnOk result (string_bytes out.new ≡ string_bytes out.old ++ node_text (fate_of fates.now) l node.now) }
{
    match node {
        Node::Plain { fields, .. } => push_fields(out, fates.fate(l), l, "", fields),
        Node::Raw { fields, .. } => push_fields(out, fates.fate(l), l, " raw", fields),
        Node::Ephe { keys, datum } => push_ephemeron(out, fates, l, keys, *datum),
    }
}

// Adds a block.
#[tactic(auto, unfolding(crate::specs::Text::block_text))]
fn push_block(out: &mut String, fates: &Fates, l: Label, node: &Node) -> Result<(), AllocError>
    ensures { OnOk result (string_bytes out.new ≡ string_bytes out.old ++ block_text (fate_of fates.now) (l, node.now)) }
{
    if is_bare(l, node) {
        Ok(())
    } else {
        push_node(out, fates, l, node)
    }
}

// Adds the blocks of a graph.
pub(crate) fn push_blocks(
    out: &mut String,
    fates: &Fates,
    graph: &Sequence<(Label, Node)>,
) -> Result<(), AllocError>
    ensures { OnOk result (string_bytes out.new ≡ string_bytes out.old ++ flat_map (block_text (fate_of fates.now)) graph.now) }
{
    for block in &graph.items {
        push_block(out, fates, block.0, &block.1)?;
    }
    Ok(())
}
