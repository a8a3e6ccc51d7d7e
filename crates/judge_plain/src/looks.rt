//! Looks into the state of a heap.
ghost use Rattle.std.specs.Prelude.{◌≡◌, ◌&&◌, not, slice_get, MatchOption, None, Some};
ghost use Rattle.std.specs.List.{list_all, list_any};
ghost use Rattle.model_core.specs.Graph.{has_label, node_at};
ghost use Rattle.model_core.specs.Entries.{ephe_holds, is_label as label_is, is_some_and};

use crate::reach::{holds_label, label};
use model_core::graph::Node;
use model_core::label::Label;
use model_core::sequence::Sequence;
use model_core::state::{Finaliser, LastFinaliser};

// The block with a label.
pub(crate) fn node_of(graph: &Sequence<(Label, Node)>, l: Label) -> Option<&Node>
    ensures { MatchOption result (node_at graph.now l ≡ None) (λ node. node_at graph.now l ≡ Some node.now) }
{
    for block in &graph.items {
        if block.0 == l {
            return Some(&block.1);
        }
    }
    None
}

// Whether a registration of `finalise` stands at a place, and its value is not among these.
pub(crate) fn is_dead_at(finals: &Sequence<Finaliser>, place: usize, live: &Vec<Label>) -> bool
    ensures { result ≡ is_some_and (λ f. not (has_label live.now.items f.label)) (slice_get finals.now place) }
{
    match finals.items.get(place) {
        Some(f) => !holds_label(live, f.label),
        None => false,
    }
}

// Whether a key stands at a place which is full, and not among these.
pub(crate) fn is_gone_key(keys: &Sequence<Option<Label>>, place: usize, live: &Vec<Label>) -> bool
    ensures { result ≡ is_some_and (is_some_and (λ l. not (has_label live.now.items l))) (slice_get keys.now place) }
{
    match keys.items.get(place) {
        Some(Some(l)) => !holds_label(live, *l),
        _ => false,
    }
}

// Whether a registration of `finalise_last` stands at a place, its value is not among these, and no ephemeron of these has it.
pub(crate) fn is_gone_at(
    graph: &Sequence<(Label, Node)>,
    lasts: &Sequence<LastFinaliser>,
    place: usize,
    live: &Vec<Label>,
) -> bool
    ensures { result ≡ is_some_and (λ f. not (has_label live.now.items f.label) && list_all (λ x. not (ephe_holds f.label (node_at graph.now x))) live.now.items) (slice_get lasts.now place) }
{
    match lasts.items.get(place) {
        Some(f) => !holds_label(live, f.label) && is_held_by_none(graph, live, f.label),
        None => false,
    }
}

// Whether none of these blocks is an ephemeron with the label as a key or as its data.
fn is_held_by_none(graph: &Sequence<(Label, Node)>, live: &Vec<Label>, l: Label) -> bool
    ensures { result ≡ list_all (λ x. not (ephe_holds l (node_at graph.now x))) live.now.items }
{
    live.iter().all(|x| !is_held_by(graph, *x, l))
}

// Whether the block x is an ephemeron with the label l as a key or as its data.
fn is_held_by(graph: &Sequence<(Label, Node)>, x: Label, l: Label) -> bool
    ensures { result ≡ ephe_holds l (node_at graph.now x) }
{
    match node_of(graph, x) {
        None => false,
        Some(node) => holds(node, l),
    }
}

// Whether a block is an ephemeron with the label as a key or as its data.
fn holds(node: &Node, l: Label) -> bool
    ensures { result ≡ ephe_holds l (Some node.now) }
{
    match node {
        Node::Plain { .. } | Node::Raw { .. } => false,
        Node::Ephe { keys, datum } => has_key(keys, l) || is_label(label(*datum), l),
    }
}

// Whether a label is among the keys.
fn has_key(keys: &Sequence<Option<Label>>, l: Label) -> bool
    ensures { result ≡ list_any (label_is l) keys.now }
{
    keys.items.iter().any(|key| is_label(*key, l))
}

// Whether there is a label, and it is this one.
fn is_label(key: Option<Label>, l: Label) -> bool
    ensures { result ≡ label_is l key }
{
    match key {
        None => false,
        Some(k) => k == l,
    }
}
