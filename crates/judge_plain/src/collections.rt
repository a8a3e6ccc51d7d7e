//! Collections: where one begins, is sealed, has collected all that it may, and ends.
ghost use Rattle.std.specs.Prelude.{◌≡◌, ◌++◌, IfOk, OnOk, IsTrue, ◌↔◌, map, filter_map, drop, not, true, slice_get};
ghost use Rattle.std.specs.List.{list_all};
ghost use Rattle.model_core.specs.Graph.{has_label, node_at};
ghost use Rattle.model_core.specs.Domains.{pending_label, queues, roots, reach as reach_of, waiting as waiting_labels, settled_reach};
ghost use Rattle.model_core.specs.Reach.{reachable};
ghost use Rattle.model_core.specs.Entries.{queued_after, queued_beyond, left_reach, with_finals_open, with_lasts_open, freshened, keys_are_live, SealAllowed, CollectedAllowed, DoneAllowed};
ghost use Rattle.judge_plain.specs.Follows.{Follows};

use crate::blocks::place_of;
use crate::reach::{holds_label, keys_alive};
use crate::roots::{add_pending, left, reach, reach_at_cut, settled_at_cut, waiting};
use model_core::entry::Entry;
use model_core::graph::Node;
use model_core::label::Label;
use model_core::reply::{Applied, ApplyFault};
use model_core::sequence::{Sequence, copy};
use model_core::state::{DomainState, LastFinaliser, Mode, Pending, State};
use std::alloc::{AllocError, Global};

// The entry that begins a collection.
pub(crate) fn cut_entry(alloc: Global, state: &mut State) -> Result<Applied, ApplyFault>
    ensures { Follows state.old state.new Entry.Cut result }
{
    if state.mode != Mode::Open {
        return Err(ApplyFault::NotLegal);
    }
    state.cut = copy_queues(alloc, &state.domains)?;
    mark_finals(&mut state.domains);
    state.mode = Mode::Cut;
    Ok(Applied::Silent)
}

// A copy of the present queues.
fn copy_queues(
    alloc: Global,
    domains: &Sequence<DomainState>,
) -> Result<Sequence<Sequence<Pending>>, AllocError>
    ensures { IfOk result (λ made. made ≡ map (λ x. x.queue) domains.now) }
{
    let mut queues = Vec::new(alloc);
    for domain in &domains.items {
        let queue = copy(alloc, &domain.queue)?;
        queues.push(queue)?;
    }
    Ok(Sequence::make(queues))
}

// All registrations of `finalise` that there are may be queued.
fn mark_finals(domains: &mut Sequence<DomainState>)
    ensures { domains.new ≡ map with_finals_open domains.old }
{
    for domain in domains.items.iter_mut() {
        let finals = &domain.finals;
        domain.low = finals.items.len() as u64;
    }
}

// The entry that seals what was queued.
pub(crate) fn seal_entry(alloc: Global, state: &mut State) -> Result<Applied, ApplyFault>
    ensures { Follows state.old state.new Entry.Seal result }
{
    let live = settled_at_cut(alloc, state)?;
    let queued = queued_since(alloc, &state.domains, &state.cut)?;
    if !is_seal_allowed(state, &live, &queued) {
        return Err(ApplyFault::NotLegal);
    }
    mark_lasts(&mut state.domains);
    state.mode = Mode::Sealed;
    state.taken = Sequence::make(Vec::new(alloc));
    Ok(Applied::Silent)
}

// Whether what was queued since the cut is apart from what is left.
fn is_seal_allowed(state: &State, live: &Vec<Label>, queued: &Vec<Label>) -> bool
    requires live { live.now.items ≡ settled_reach state.now state.now.cut }
    requires queued { queued.now.items ≡ queued_beyond (queues state.now) state.now.cut }
    ensures { IsTrue result ↔ SealAllowed state.now }
{
    state.mode == Mode::Cut && are_apart(queued, live)
}

// Whether no label of the first list is in the second.
fn are_apart(labels: &Vec<Label>, live: &Vec<Label>) -> bool
    ensures { result ≡ list_all (λ l. not (has_label live.now.items l)) labels.now.items }
{
    labels.iter().all(|l| !holds_label(live, *l))
}

// The labels that were queued since the cut.
fn queued_since(
    alloc: Global,
    domains: &Sequence<DomainState>,
    cut: &Sequence<Sequence<Pending>>,
) -> Result<Vec<Label>, AllocError>
    ensures { IfOk result (λ v. v.items ≡ queued_beyond (map (λ x. x.queue) domains.now) cut.now) }
{
    let mut labels = Vec::new(alloc);
    for (i, domain) in domains.items.iter().enumerate() {
        add_since(domain, cut, i, &mut labels)?;
    }
    Ok(labels)
}

// Adds the labels that a domain's queue has beyond what the queue at a place of the cut held.
fn add_since(
    domain: &DomainState,
    cut: &Sequence<Sequence<Pending>>,
    place: usize,
    labels: &mut Vec<Label>,
) -> Result<(), AllocError>
    ensures { OnOk result (labels.new.items ≡ labels.old.items ++ queued_after domain.now.queue (slice_get cut.now place)) }
{
    match cut.items.get(place) {
        Some(before) => add_later(&domain.queue, before.items.len(), labels),
        None => Ok(()),
    }
}

// Adds the labels that a queue keeps alive from a place on.
fn add_later(
    queue: &Sequence<Pending>,
    from: usize,
    labels: &mut Vec<Label>,
) -> Result<(), AllocError>
    ensures { OnOk result (labels.new.items ≡ labels.old.items ++ filter_map pending_label (drop from queue.now)) }
{
    if from < queue.items.len() {
        add_pending(&queue.items[from..], labels)?;
    }
    Ok(())
}

// All registrations of `finalise_last` that there are may be queued.
fn mark_lasts(domains: &mut Sequence<DomainState>)
    ensures { domains.new ≡ map with_lasts_open domains.old }
{
    for domain in domains.items.iter_mut() {
        let lasts = &domain.lasts;
        domain.low = lasts.items.len() as u64;
    }
}

// The entry that says that nothing which is permitted is left.
pub(crate) fn collected_entry(alloc: Global, state: &mut State) -> Result<Applied, ApplyFault>
    ensures { Follows state.old state.new Entry.Collected result }
{
    let live = reach(alloc, state)?;
    let at_cut = reach_at_cut(alloc, state)?;
    let waiting = waiting(alloc, state)?;
    if !is_collected_allowed(state, &live, &at_cut, &waiting) {
        return Err(ApplyFault::NotLegal);
    }
    freshen(&mut state.domains);
    state.mode = Mode::Answer;
    state.kept = live.len() as u64;
    Ok(Applied::Silent)
}

// Whether nothing that is permitted is left.
fn is_collected_allowed(
    state: &State,
    live: &Vec<Label>,
    at_cut: &Vec<Label>,
    waiting: &Vec<Label>,
) -> bool
    requires live { live.now.items ≡ reach_of state.now }
    requires at_cut { at_cut.now.items ≡ reachable state.now.graph (roots state.now state.now.cut) }
    requires waiting { waiting.now.items ≡ waiting_labels state.now }
    ensures { IsTrue result ↔ CollectedAllowed state.now }
{
    state.mode == Mode::Sealed
        && all_keys_alive(&state.graph, live)
        && are_within(waiting, at_cut)
        && all_lasts_alive(&state.domains, live)
}

// Whether each label of the first list is in the second.
fn are_within(labels: &Vec<Label>, live: &Vec<Label>) -> bool
    ensures { result ≡ list_all (has_label live.now.items) labels.now.items }
{
    labels.iter().all(|l| holds_label(live, *l))
}

// Whether each full key of these blocks is among them.
fn all_keys_alive(graph: &Sequence<(Label, Node)>, live: &Vec<Label>) -> bool
    ensures { result ≡ list_all (λ l. keys_are_live (has_label live.now.items) (node_at graph.now l)) live.now.items }
{
    live.iter().all(|l| has_keys_alive(graph, live, *l))
}

// Whether each full key of the block with a label is alive.
fn has_keys_alive(graph: &Sequence<(Label, Node)>, live: &Vec<Label>, l: Label) -> bool
    ensures { result ≡ keys_are_live (has_label live.now.items) (node_at graph.now l) }
{
    let Some(i) = place_of(graph, l) else {
        return true;
    };
    match &graph.items[i].1 {
        Node::Plain { .. } | Node::Raw { .. } => true,
        Node::Ephe { keys, .. } => keys_alive(live, keys),
    }
}

// Whether the values of these registrations are alive.
fn lasts_alive(lasts: &Sequence<LastFinaliser>, live: &Vec<Label>) -> bool
    ensures { result ≡ list_all (λ f. has_label live.now.items f.label) lasts.now }
{
    lasts.items.iter().all(|f| holds_label(live, f.label))
}

// Whether the values of all registrations of `finalise_last` are alive.
fn all_lasts_alive(domains: &Sequence<DomainState>, live: &Vec<Label>) -> bool
    ensures { result ≡ list_all (λ x. list_all (λ f. has_label live.now.items f.label) x.lasts) domains.now }
{
    domains.items.iter().all(|x| lasts_alive(&x.lasts, live))
}

// No domain has made an entry since the collection.
fn freshen(domains: &mut Sequence<DomainState>)
    ensures { domains.new ≡ map freshened domains.old }
{
    for domain in domains.items.iter_mut() {
        domain.fresh = true;
    }
}

// The entry that ends a collection.
pub(crate) fn done_entry(alloc: Global, state: &mut State) -> Result<Applied, ApplyFault>
    ensures { Follows state.old state.new Entry.Done result }
{
    let live = left(alloc, state)?;
    if !is_done_allowed(state, &live) {
        return Err(ApplyFault::NotLegal);
    }
    state.mode = Mode::Open;
    Ok(Applied::Silent)
}

// Whether a collection that was sealed may be left.
fn is_done_allowed(state: &State, live: &Vec<Label>) -> bool
    requires { live.now.items ≡ left_reach state.now }
    ensures { IsTrue result ↔ DoneAllowed state.now }
{
    let taken = &state.taken;
    (state.mode == Mode::Sealed || state.mode == Mode::Answer) && are_apart(&taken.items, live)
}
