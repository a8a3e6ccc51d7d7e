//! The labels reachable from given roots, by rounds over the whole graph.
ghost use Rattle.std.specs.Prelude.{◌≡◌, ◌++◌, IfOk, IfSome, flat_map, filter_map, fold, option_to_list, sum_by, OnOk};
ghost use Rattle.std.specs.List.{list_all};
ghost use Rattle.model_core.specs.Graph.{has_label, label_of, words_at, words_of};
ghost use Rattle.model_core.specs.Reach.{key_holds, with_label, edges_of, edges_at, grow, reachable};

use crate::blocks::place_of;
use model_core::graph::{Node, Value};
use model_core::label::Label;
use model_core::sequence::Sequence;
use std::alloc::{AllocError, Global};

// Whether a label is in a list.
pub(crate) fn holds_label(labels: &Vec<Label>, l: Label) -> bool
    ensures { result ≡ has_label labels.now.items l }
{
    labels.iter().any(|k| *k == l)
}

// Adds a label that isn't there yet.
fn add_label(live: &mut Vec<Label>, l: Label) -> Result<(), AllocError>
    ensures { OnOk result (live.new.items ≡ with_label live.old.items l) }
{
    if !holds_label(live, l) {
        live.push(l)?;
    }
    Ok(())
}

// Whether a key is empty or alive.
fn key_alive(live: &Vec<Label>, key: Option<Label>) -> bool
    ensures { result ≡ key_holds (has_label live.now.items) key }
{
    match key {
        None => true,
        Some(k) => holds_label(live, k),
    }
}

// Whether all full keys are alive.
pub(crate) fn keys_alive(live: &Vec<Label>, keys: &Sequence<Option<Label>>) -> bool
    ensures { result ≡ list_all (key_holds (has_label live.now.items)) keys.now }
{
    keys.items.iter().all(|key| key_alive(live, *key))
}

// The label that a value is.
pub(crate) fn label(value: Value) -> Option<Label>
    ensures { result ≡ label_of value }
{
    match value {
        Value::Block(l) => Some(l),
        _ => None,
    }
}

// Adds a label, if there is one.
pub(crate) fn push_label(labels: &mut Vec<Label>, l: Option<Label>) -> Result<(), AllocError>
    ensures { OnOk result (labels.new.items ≡ labels.old.items ++ option_to_list l) }
{
    if let Some(l) = l {
        labels.push(l)?;
    }
    Ok(())
}

// Adds the labels in a list of values.
pub(crate) fn add_values(
    values: &Sequence<Value>,
    labels: &mut Vec<Label>,
) -> Result<(), AllocError>
    ensures { OnOk result (labels.new.items ≡ labels.old.items ++ filter_map label_of values.now) }
{
    for value in &values.items {
        push_label(labels, label(*value))?;
    }
    Ok(())
}

// Adds what a node keeps alive to a list.
fn add_edges(live: &Vec<Label>, node: &Node, edges: &mut Vec<Label>) -> Result<(), AllocError>
    ensures { OnOk result (edges.new.items ≡ edges.old.items ++ edges_of (has_label live.now.items) node.now) }
{
    match node {
        Node::Plain { fields, .. } => add_values(fields, edges)?,
        Node::Raw { .. } => {}
        Node::Ephe { keys, datum } => {
            if keys_alive(live, keys) {
                push_label(edges, label(*datum))?;
            }
        }
    }
    Ok(())
}

// Adds what a label keeps alive to a list.
fn add_edges_of(
    graph: &Sequence<(Label, Node)>,
    live: &Vec<Label>,
    l: Label,
    edges: &mut Vec<Label>,
) -> Result<(), AllocError>
    ensures { OnOk result (edges.new.items ≡ edges.old.items ++ edges_at graph.now (has_label live.now.items) l) }
{
    if let Some(i) = place_of(graph, l) {
        add_edges(live, &graph.items[i].1, edges)?;
    }
    Ok(())
}

// What the labels of a set keep alive.
fn edges_from(
    alloc: Global,
    graph: &Sequence<(Label, Node)>,
    live: &Vec<Label>,
) -> Result<Vec<Label>, AllocError>
    ensures { IfOk result (λ v. v.items ≡ flat_map (edges_at graph.now (has_label live.now.items)) live.now.items) }
{
    let mut edges = Vec::new(alloc);
    for l in live {
        add_edges_of(graph, live, *l, &mut edges)?;
    }
    Ok(edges)
}

// Adds the labels that aren't there yet.
fn add_labels(live: &mut Vec<Label>, labels: &Vec<Label>) -> Result<(), AllocError>
    ensures { OnOk result (live.new.items ≡ fold with_label live.old.items labels.now.items) }
{
    for l in labels {
        add_label(live, *l)?;
    }
    Ok(())
}

// One round of growing.
fn grow_once(
    alloc: Global,
    graph: &Sequence<(Label, Node)>,
    live: &mut Vec<Label>,
) -> Result<(), AllocError>
    ensures { OnOk result (live.new.items ≡ grow graph.now live.old.items) }
{
    let edges = edges_from(alloc, graph, live)?;
    add_labels(live, &edges)
}

// The labels reachable from the roots. A round that adds nothing is the last that could.
pub(crate) fn reachable_from(
    alloc: Global,
    graph: &Sequence<(Label, Node)>,
    roots: &Vec<Label>,
) -> Result<Vec<Label>, AllocError>
    ensures { IfOk result (λ v. v.items ≡ reachable graph.now roots.now.items) }
{
    let mut live = Vec::new(alloc);
    add_labels(&mut live, roots)?;
    for _i in 0..graph.items.len() {
        let before = live.len();
        grow_once(alloc, graph, &mut live)?;
        if live.len() == before {
            return Ok(live);
        }
    }
    Ok(live)
}

// The words of a block, if they fit 64 bits.
fn words_in(node: &Node) -> Option<u64>
    ensures { IfSome result (λ n. n ≡ words_of node.now) }
{
    match node {
        Node::Plain { fields, .. } => (fields.items.len() as u64).checked_add(2),
        Node::Raw { fields, .. } => (fields.items.len() as u64).checked_add(2),
        Node::Ephe { keys, .. } => (keys.items.len() as u64).checked_add(3),
    }
}

// The words of the block with a label, if they fit 64 bits.
fn words_under(graph: &Sequence<(Label, Node)>, l: Label) -> Option<u64>
    ensures { IfSome result (λ n. n ≡ words_at graph.now l) }
{
    match place_of(graph, l) {
        Some(i) => words_in(&graph.items[i].1),
        None => Some(0),
    }
}

// The words of all these blocks, if they fit 64 bits.
pub(crate) fn total_words(graph: &Sequence<(Label, Node)>, live: &Vec<Label>) -> Option<u64>
    ensures { IfSome result (λ n. n ≡ sum_by (words_at graph.now) live.now.items) }
{
    let mut total = 0u64;
    for l in live {
        let words = words_under(graph, *l)?;
        total = total.checked_add(words)?;
    }
    Some(total)
}
