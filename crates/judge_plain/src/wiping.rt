//! Ephemerons whose keys a collection empties.
ghost use Rattle.std.specs.Prelude.{◌≡◌, ◌++◌, IfOk, OnOk, IsTrue, ◌↔◌, filter_map, not, slice_get, option_to_list, Some};
ghost use Rattle.std.specs.List.{list_all};
ghost use Rattle.model_core.specs.Graph.{has_label, node_at};
ghost use Rattle.model_core.specs.Domains.{queues, settled_reach};
ghost use Rattle.model_core.specs.Entries.{is_some_and, at_places, wiped_keys, keys_at, with_wiped, wiped, has_keys, WipeAllowed};
ghost use Rattle.judge_plain.specs.Follows.{Follows};

use crate::blocks::place_of;
use crate::looks::is_gone_key;
use crate::queueing::is_rising;
use crate::reach::push_label;
use crate::roots::settled;
use model_core::entry::{Entry, Places};
use model_core::graph::{Node, Value};
use model_core::label::Label;
use model_core::reply::{Applied, ApplyFault};
use model_core::sequence::{Sequence, at};
use model_core::state::{Mode, State};
use std::alloc::{AllocError, Global};

// The entry that empties keys of an ephemeron, and its data.
pub(crate) fn wipe_entry(
    alloc: Global,
    state: &mut State,
    l: Label,
    places: &Places,
) -> Result<Applied, ApplyFault>
    ensures { Follows state.old state.new (Entry.Wipe l places.now) result }
{
    let live = settled(alloc, state)?;
    if !is_wipe_allowed(state, l, places, &live) {
        return Err(ApplyFault::NotLegal);
    }
    let taken = taken_with(alloc, state, l, places)?;
    wipe(state, l, places);
    state.taken = taken;
    Ok(Applied::Silent)
}

// Whether these keys of an ephemeron may be emptied.
fn is_wipe_allowed(state: &State, l: Label, places: &Places, live: &Vec<Label>) -> bool
    requires { live.now.items ≡ settled_reach state.now (queues state.now) }
    ensures { IsTrue result ↔ WipeAllowed state.now l places.now }
{
    state.mode == Mode::Sealed && is_rising(places) && are_gone(state, l, places, live)
}

// Whether the block with a label is an ephemeron, and these keys of it are full and gone.
fn are_gone(state: &State, l: Label, places: &Places, live: &Vec<Label>) -> bool
    ensures { result ≡ has_keys (λ k. not (has_label live.now.items k)) places.now (node_at state.now.graph l) }
{
    let graph = &state.graph;
    match place_of(graph, l) {
        None => false,
        Some(i) => has_gone_keys(&graph.items[i].1, places, live),
    }
}

// Whether a block is an ephemeron, and these keys of it are full and gone.
fn has_gone_keys(node: &Node, places: &Places, live: &Vec<Label>) -> bool
    ensures { result ≡ has_keys (λ k. not (has_label live.now.items k)) places.now (Some node.now) }
{
    match node {
        Node::Plain { .. } | Node::Raw { .. } => false,
        Node::Ephe { keys, .. } => are_gone_keys(keys, places, live),
    }
}

// Whether these keys are full and gone.
fn are_gone_keys(keys: &Sequence<Option<Label>>, places: &Places, live: &Vec<Label>) -> bool
    ensures { result ≡ list_all (λ p. is_some_and (is_some_and (λ l. not (has_label live.now.items l))) (slice_get keys.now p)) places.now }
{
    places
        .items
        .iter()
        .all(|p| is_gone_key(keys, *p as usize, live))
}

// The labels that were taken, with those of these keys.
fn taken_with(
    alloc: Global,
    state: &State,
    l: Label,
    places: &Places,
) -> Result<Sequence<Label>, AllocError>
    ensures { IfOk result (λ made. made ≡ state.now.taken ++ keys_at places.now (node_at state.now.graph l)) }
{
    let taken = &state.taken;
    let mut labels = Vec::from_slice(alloc, &taken.items)?;
    add_wiped_of(&state.graph, l, places, &mut labels)?;
    Ok(Sequence::make(labels))
}

// Adds the labels in these keys of the block with a label.
fn add_wiped_of(
    graph: &Sequence<(Label, Node)>,
    l: Label,
    places: &Places,
    labels: &mut Vec<Label>,
) -> Result<(), AllocError>
    ensures { OnOk result (labels.new.items ≡ labels.old.items ++ keys_at places.now (node_at graph.now l)) }
{
    match place_of(graph, l) {
        None => Ok(()),
        Some(i) => add_wiped(&graph.items[i].1, places, labels),
    }
}

// Adds the labels in these keys of a block.
fn add_wiped(node: &Node, places: &Places, labels: &mut Vec<Label>) -> Result<(), AllocError>
    ensures { OnOk result (labels.new.items ≡ labels.old.items ++ keys_at places.now (Some node.now)) }
{
    match node {
        Node::Plain { .. } | Node::Raw { .. } => Ok(()),
        Node::Ephe { keys, .. } => add_keys_at(keys, places, labels),
    }
}

// Adds the labels in the keys at these places.
fn add_keys_at(
    keys: &Sequence<Option<Label>>,
    places: &Places,
    labels: &mut Vec<Label>,
) -> Result<(), AllocError>
    ensures { OnOk result (labels.new.items ≡ labels.old.items ++ filter_map (λ k. k) (at_places places.now keys.now)) }
{
    for p in &places.items {
        add_key_at(keys, *p as usize, labels)?;
    }
    Ok(())
}

// Adds the label in the key at a place.
fn add_key_at(
    keys: &Sequence<Option<Label>>,
    place: usize,
    labels: &mut Vec<Label>,
) -> Result<(), AllocError>
    ensures { OnOk result (labels.new.items ≡ labels.old.items ++ filter_map (λ k. k) (option_to_list (slice_get keys.now place))) }
{
    match at(keys, place) {
        Some(key) => push_label(labels, key),
        None => Ok(()),
    }
}

// Empties these keys of an ephemeron, and its data.
fn wipe(state: &mut State, l: Label, places: &Places)
    ensures { state.new ≡ with_wiped state.old l (wiped places.now (node_at state.old.graph l)) }
{
    let Some(i) = place_of(&state.graph, l) else {
        return;
    };
    let graph = &mut state.graph;
    let block = &mut graph.items[i];
    if let Node::Ephe { keys, datum } = &mut block.1 {
        empty_keys(keys, places);
        *datum = Value::Nothing;
    }
}

// Empties the keys at these places.
fn empty_keys(keys: &mut Sequence<Option<Label>>, places: &Places)
    ensures { keys.new ≡ wiped_keys places.now keys.old }
{
    let mut left = places.items.len();
    while left > 0 {
        left -= 1;
        let place = places.items[left] as usize;
        if place < keys.items.len() {
            keys.items[place] = None;
        }
    }
}
