//! What a complete collection empties of ephemerons.
ghost use Rattle.std.specs.Prelude.{◌≡◌, ◌<◌, ◌++◌, ◌∷◌, [], length, cond, IfOk, OnOk, Some, filter, flat_map, map};
ghost use Rattle.std.specs.List.{range_with_len};
ghost use Rattle.model_core.specs.declared.label.Label.{Label as declared_label};
ghost use Rattle.model_core.specs.Domains.{domain_at, queues, reach as reach_of, settled_reach};
ghost use Rattle.model_core.specs.Graph.{has_label, node_at};
ghost use Rattle.model_traces.specs.Schedules.Scheduled.{all_wiped as wiped_in, gone_keys as gone_of, wiping};
ghost use Rattle.judge_plain.specs.Scheduled.Wipes.{label_at, wipes_of};

use crate::SlowHeap;
use crate::looks::node_of;
use crate::reach::holds_label;
use crate::scheduled::places::key_places;
use model_core::entry::{Entry, Places};
use model_core::graph::Node;
use model_core::label::Label;
use model_core::state::State;
use std::alloc::{AllocError, Global};

// Adds the entry that empties the keys at these places, if there are any.
fn push_wipe(entries: &mut Vec<Entry>, label: Label, places: Vec<u32>) -> Result<(), AllocError>
    ensures { OnOk result (entries.new.items ≡ entries.old.items ++ wiping label places.items) }
{
    if !places.is_empty() {
        let keys = Places::make(places);
        entries.push(Entry::Wipe { label, keys })?;
    }
    Ok(())
}

// The places of the keys of a block that are gone.
#[tactic(auto, using(crate::proofs::OfScheduled::TakeLemmas::keys_are))]
fn gone_keys(
    alloc: Global,
    state: &State,
    l: Label,
    settled: &Vec<Label>,
) -> Result<Vec<u32>, AllocError>
    requires { settled.now.items ≡ settled_reach state.now (queues state.now) }
    ensures { IfOk result (λ v. v.items ≡ gone_of state.now (node_at state.now.graph l)) }
{
    match node_of(&state.graph, l) {
        Some(Node::Ephe { keys, .. }) => key_places(alloc, keys, settled),
        _ => Ok(Vec::new(alloc)),
    }
}

/// What the heap reaches, and what it reaches with the waiting registrations.
#[derive(Drop)]
struct Reached {
    live: Vec<Label>,
    settled: Vec<Label>,
}

// Adds the entry that empties what is gone of the keys of a block, if that is reached.
fn push_keys(
    alloc: Global,
    state: &State,
    reached: &Reached,
    l: Label,
    entries: &mut Vec<Entry>,
) -> Result<(), AllocError>
    requires live { reached.now.live.items ≡ reach_of state.now }
    requires settled { reached.now.settled.items ≡ settled_reach state.now (queues state.now) }
    ensures { OnOk result (entries.new.items ≡ entries.old.items ++ wipes_of state.now (l ∷ [])) }
{
    if holds_label(&reached.live, l) {
        let places = gone_keys(alloc, state, l, &reached.settled)?;
        push_wipe(entries, l, places)?;
    }
    Ok(())
}

// Adds the entries that empty what is gone of the keys of the blocks of a domain.
#[tactic(auto, using(crate::proofs::OfScheduled::TakeLemmas::wipes_more))]
fn push_domain(
    alloc: Global,
    state: &State,
    reached: &Reached,
    domain: u32,
    count: u32,
    entries: &mut Vec<Entry>,
) -> Result<(), AllocError>
    requires live { reached.now.live.items ≡ reach_of state.now }
    requires settled { reached.now.settled.items ≡ settled_reach state.now (queues state.now) }
    ensures { OnOk result (entries.new.items ≡ entries.old.items ++ wipes_of state.now (map (label_at domain) (range_with_len 1 count))) }
{
    'serials: for before in 0..count {
        let serial = before + 1;
        push_keys(alloc, state, reached, Label { domain, serial }, entries)?;
    }
    Ok(())
}

// How many blocks a domain has made.
fn serial_of(state: &State, d: usize) -> u32
    requires { d < length state.now.domains }
    ensures { result ≡ (domain_at state.now d).serial }
{
    let domains = &state.domains;
    domains.items[d].serial
}

// Adds the entries that empty what is gone of the keys of all blocks.
#[tactic(auto, using(crate::proofs::OfScheduled::TakeLemmas::domain_more))]
fn push_all(
    alloc: Global,
    heap: &SlowHeap,
    reached: &Reached,
    entries: &mut Vec<Entry>,
) -> Result<(), AllocError>
    requires live { reached.now.live.items ≡ reach_of heap.now }
    requires settled { reached.now.settled.items ≡ settled_reach heap.now (queues heap.now) }
    requires empty { entries.old.items ≡ [] }
    ensures { OnOk result (entries.new.items ≡ wiped_in heap.now) }
{
    let state = heap.state();
    let shared = Label {
        domain: 0,
        serial: 0,
    };
    push_keys(alloc, state, reached, shared, entries)?;
    let domains = &state.domains;
    'domains: for d in 0..domains.items.len() {
        // More domains than 32 bits count would fill more than all memory.
        let domain = u32::try_from(d).map_err(|_| AllocError)?;
        let count = serial_of(state, d);
        push_domain(alloc, state, reached, domain, count, entries)?;
    }
    Ok(())
}

// All that is emptied: of each reachable ephemeron all keys that are gone.
pub(crate) fn all_wiped(alloc: Global, heap: &SlowHeap) -> Result<Vec<Entry>, AllocError>
    ensures { IfOk result (λ v. v.items ≡ wiped_in heap.now) }
{
    let reached = Reached {
        live: heap.reach()?,
        settled: heap.settled_reach()?,
    };
    let mut entries = Vec::new(alloc);
    push_all(alloc, heap, &reached, &mut entries)?;
    Ok(entries)
}
