//! The roots, and what a collection takes as reachable.
ghost use Rattle.std.specs.Prelude.{◌≡◌, ◌++◌, IfOk, OnOk, flat_map, filter_map, map, Some};
ghost use Rattle.model_core.specs.Graph.{label_of};
ghost use Rattle.model_core.specs.Domains.{pending_label, queues, roots, reach as reach_of, waiting as waiting_labels, settled_reach};
ghost use Rattle.model_core.specs.Reach.{reachable};
ghost use Rattle.model_core.specs.Commands.{live_reply};
ghost use Rattle.model_core.specs.Entries.{left_reach};

use crate::opened::opened_graph;
use crate::reach::{add_values, push_label, reachable_from, total_words};
use model_core::label::Label;
use model_core::reply::Reply;
use model_core::sequence::Sequence;
use model_core::state::{DomainState, Pending, State};
use std::alloc::{AllocError, Global};

// The label that a queued finaliser keeps alive.
pub(crate) fn kept_by(pending: Pending) -> Option<Label>
    ensures { result ≡ pending_label pending }
{
    match pending {
        Pending::Fin { label, .. } => Some(label),
        Pending::Last { .. } => None,
    }
}

// Adds the labels that a queue keeps alive.
pub(crate) fn add_pending(queue: &[Pending], labels: &mut Vec<Label>) -> Result<(), AllocError>
    ensures { OnOk result (labels.new.items ≡ labels.old.items ++ filter_map pending_label queue.now) }
{
    for pending in queue {
        push_label(labels, kept_by(*pending))?;
    }
    Ok(())
}

// Adds the labels in the registers.
fn add_registers(domains: &Sequence<DomainState>, labels: &mut Vec<Label>) -> Result<(), AllocError>
    ensures { OnOk result (labels.new.items ≡ labels.old.items ++ flat_map (λ x. filter_map label_of x.registers) domains.now) }
{
    for domain in &domains.items {
        add_values(&domain.registers, labels)?;
    }
    Ok(())
}

// Adds the labels that the present queues keep alive.
fn add_queues(domains: &Sequence<DomainState>, labels: &mut Vec<Label>) -> Result<(), AllocError>
    ensures { OnOk result (labels.new.items ≡ labels.old.items ++ flat_map (λ x. filter_map pending_label x.queue) domains.now) }
{
    for domain in &domains.items {
        let queue = &domain.queue;
        add_pending(&queue.items, labels)?;
    }
    Ok(())
}

// Adds the labels that these queues keep alive.
fn add_cut(cut: &Sequence<Sequence<Pending>>, labels: &mut Vec<Label>) -> Result<(), AllocError>
    ensures { OnOk result (labels.new.items ≡ labels.old.items ++ flat_map (filter_map pending_label) cut.now) }
{
    for queue in &cut.items {
        add_pending(&queue.items, labels)?;
    }
    Ok(())
}

// Adds the labels of the registrations of `finalise` in one domain.
fn add_finals(domain: &DomainState, labels: &mut Vec<Label>) -> Result<(), AllocError>
    ensures { OnOk result (labels.new.items ≡ labels.old.items ++ map (λ f. f.label) domain.now.finals) }
{
    let finals = &domain.finals;
    for f in &finals.items {
        labels.push(f.label)?;
    }
    Ok(())
}

// Adds the labels of the registrations of `finalise_last` in one domain.
fn add_lasts(domain: &DomainState, labels: &mut Vec<Label>) -> Result<(), AllocError>
    ensures { OnOk result (labels.new.items ≡ labels.old.items ++ map (λ f. f.label) domain.now.lasts) }
{
    let lasts = &domain.lasts;
    for f in &lasts.items {
        labels.push(f.label)?;
    }
    Ok(())
}

// Adds the labels of the waiting registrations.
fn add_waiting(domains: &Sequence<DomainState>, labels: &mut Vec<Label>) -> Result<(), AllocError>
    ensures { OnOk result (labels.new.items ≡ labels.old.items ++ flat_map (λ x. map (λ f. f.label) x.finals) domains.now) }
{
    for domain in &domains.items {
        add_finals(domain, labels)?;
    }
    Ok(())
}

// Adds the labels of all registrations of `finalise_last`.
fn add_all_lasts(domains: &Sequence<DomainState>, labels: &mut Vec<Label>) -> Result<(), AllocError>
    ensures { OnOk result (labels.new.items ≡ labels.old.items ++ flat_map (λ x. map (λ f. f.label) x.lasts) domains.now) }
{
    for domain in &domains.items {
        add_lasts(domain, labels)?;
    }
    Ok(())
}

// The roots with the present queues.
fn roots_now(alloc: Global, state: &State) -> Result<Vec<Label>, AllocError>
    ensures { IfOk result (λ v. v.items ≡ roots state.now (queues state.now)) }
{
    let mut labels = Vec::new(alloc);
    add_registers(&state.domains, &mut labels)?;
    add_queues(&state.domains, &mut labels)?;
    Ok(labels)
}

// The roots with the queues at the cut.
fn roots_at_cut(alloc: Global, state: &State) -> Result<Vec<Label>, AllocError>
    ensures { IfOk result (λ v. v.items ≡ roots state.now state.now.cut) }
{
    let mut labels = Vec::new(alloc);
    add_registers(&state.domains, &mut labels)?;
    add_cut(&state.cut, &mut labels)?;
    Ok(labels)
}

// What the registers and the present queues reach.
pub(crate) fn reach(alloc: Global, state: &State) -> Result<Vec<Label>, AllocError>
    ensures { IfOk result (λ v. v.items ≡ reach_of state.now) }
{
    let roots = roots_now(alloc, state)?;
    reachable_from(alloc, &state.graph, &roots)
}

// What the registers and the queues at the cut reach.
pub(crate) fn reach_at_cut(alloc: Global, state: &State) -> Result<Vec<Label>, AllocError>
    ensures { IfOk result (λ v. v.items ≡ reachable state.now.graph (roots state.now state.now.cut)) }
{
    let roots = roots_at_cut(alloc, state)?;
    reachable_from(alloc, &state.graph, &roots)
}

// What the registers, the present queues and the waiting registrations reach.
pub(crate) fn settled(alloc: Global, state: &State) -> Result<Vec<Label>, AllocError>
    ensures { IfOk result (λ v. v.items ≡ settled_reach state.now (queues state.now)) }
{
    let mut roots = roots_now(alloc, state)?;
    add_waiting(&state.domains, &mut roots)?;
    reachable_from(alloc, &state.graph, &roots)
}

// What the registers, the queues at the cut and the waiting registrations reach.
pub(crate) fn settled_at_cut(alloc: Global, state: &State) -> Result<Vec<Label>, AllocError>
    ensures { IfOk result (λ v. v.items ≡ settled_reach state.now state.now.cut) }
{
    let mut roots = roots_at_cut(alloc, state)?;
    add_waiting(&state.domains, &mut roots)?;
    reachable_from(alloc, &state.graph, &roots)
}

// What all that a collection leaves leads to, over fields, keys and data.
pub(crate) fn left(alloc: Global, state: &State) -> Result<Vec<Label>, AllocError>
    ensures { IfOk result (λ v. v.items ≡ left_reach state.now) }
{
    let mut roots = roots_now(alloc, state)?;
    add_waiting(&state.domains, &mut roots)?;
    add_all_lasts(&state.domains, &mut roots)?;
    let graph = opened_graph(alloc, &state.graph)?;
    reachable_from(alloc, &graph, &roots)
}

// The labels of the waiting registrations.
pub(crate) fn waiting(alloc: Global, state: &State) -> Result<Vec<Label>, AllocError>
    ensures { IfOk result (λ v. v.items ≡ waiting_labels state.now) }
{
    let mut labels = Vec::new(alloc);
    add_waiting(&state.domains, &mut labels)?;
    Ok(labels)
}

// What `full_major` answers. Words that don't fit 64 bits would fill more than all memory, and are answered as want of it.
pub(crate) fn live(alloc: Global, state: &State) -> Result<Reply, AllocError>
    ensures { IfOk result (λ r. r ≡ live_reply state.now) }
{
    let live = reach(alloc, state)?;
    match total_words(&state.graph, &live) {
        Some(words) => Ok(Reply::Live {
            blocks: live.len() as u64,
            words,
        }),
        None => Err(AllocError),
    }
}
