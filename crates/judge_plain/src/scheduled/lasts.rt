//! What a complete collection queues of `finalise_last`.
ghost use Rattle.std.specs.Prelude.{◌≡◌, ◌++◌, ◌<◌, IfOk, OnOk, length, map, reverse};
ghost use Rattle.model_core.specs.Domains.{domain_at, queues, settled_reach};
ghost use Rattle.model_traces.specs.Schedules.Scheduled.{all_lasts as lasts_in, gone_lasts as gone_of};

use crate::SlowHeap;
use crate::scheduled::places::gone_places;
use model_core::entry::Entry;
use model_core::label::Label;
use model_core::sequence::Sequence;
use model_core::state::{LastFinaliser, State};
use std::alloc::{AllocError, Global};

// Adds the entries that queue the registrations at these places, the last first.
fn push_lasts(entries: &mut Vec<Entry>, domain: u32, places: &[u32]) -> Result<(), AllocError>
    ensures { OnOk result (entries.new.items ≡ entries.old.items ++ map (λ p. Entry.Last domain p) (reverse places.now)) }
{
    let mut left = places.len();
    'left: while left > 0 {
        left -= 1;
        let place = places[left];
        entries.push(Entry::Last { domain, place })?;
    }
    Ok(())
}

// The registrations of a domain.
fn lasts_of(state: &State, d: usize) -> &Sequence<LastFinaliser>
    requires { d < length state.now.domains }
    ensures { result.now ≡ (domain_at state.now d).lasts }
{
    let domains = &state.domains;
    &domains.items[d].lasts
}

// The places of the registrations of a domain that may be queued.
#[tactic(auto, using(crate::proofs::OfScheduled::TakeLemmas::gone_is))]
fn gone_lasts(
    alloc: Global,
    state: &State,
    d: usize,
    settled: &Vec<Label>,
) -> Result<Vec<u32>, AllocError>
    requires inside { d < length state.now.domains }
    requires settled { settled.now.items ≡ settled_reach state.now (queues state.now) }
    ensures { IfOk result (λ v. v.items ≡ gone_of state.now d) }
{
    let lasts = lasts_of(state, d);
    let places = gone_places(alloc, &state.graph, lasts, settled)?;
    Ok(places)
}

// All that is queued, for each domain in turn, the newest first.
#[tactic(auto, using(crate::proofs::OfScheduled::ListLemmas::flat_map_more))]
pub(crate) fn all_lasts(alloc: Global, heap: &SlowHeap) -> Result<Vec<Entry>, AllocError>
    ensures { IfOk result (λ v. v.items ≡ lasts_in heap.now) }
{
    let settled = heap.settled_reach()?;
    let state = heap.state();
    let mut entries = Vec::new(alloc);
    let domains = &state.domains;
    'domains: for d in 0..domains.items.len() {
        // More domains than 32 bits count would fill more than all memory.
        let domain = u32::try_from(d).map_err(|_| AllocError)?;
        let places = gone_lasts(alloc, state, d, &settled)?;
        push_lasts(&mut entries, domain, &places)?;
    }
    Ok(entries)
}
