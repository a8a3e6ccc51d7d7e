//! What a complete collection queues of `finalise`.
ghost use Rattle.std.specs.Prelude.{◌≡◌, ◌++◌, ◌<◌, IfOk, OnOk, length};
ghost use Rattle.model_core.specs.Domains.{queues, reach as reach_of};
ghost use Rattle.model_traces.specs.Schedules.Scheduled.{all_queued as queued_in, dead_finals as dead_of, queuing};

use crate::SlowHeap;
use crate::scheduled::places::dead_places;
use model_core::entry::{Entry, Places};
use model_core::label::Label;
use model_core::state::State;
use std::alloc::{AllocError, Global};

// Adds the entry that queues the registrations at these places, if there are any.
fn push_queue(entries: &mut Vec<Entry>, domain: u32, places: Vec<u32>) -> Result<(), AllocError>
    ensures { OnOk result (entries.new.items ≡ entries.old.items ++ queuing domain places.items) }
{
    if !places.is_empty() {
        let places = Places::make(places);
        entries.push(Entry::Queue { domain, places })?;
    }
    Ok(())
}

// The places of the registrations of a domain that may be queued, right behind the cut.
#[tactic(auto, using(crate::proofs::OfScheduled::TakeLemmas::dead_is))]
fn dead_finals(
    alloc: Global,
    state: &State,
    d: usize,
    live: &Vec<Label>,
) -> Result<Vec<u32>, AllocError>
    requires inside { d < length state.now.domains }
    requires cut { state.now.cut ≡ queues state.now }
    requires live { live.now.items ≡ reach_of state.now }
    ensures { IfOk result (λ v. v.items ≡ dead_of state.now d) }
{
    let domains = &state.domains;
    let domain = &domains.items[d];
    dead_places(alloc, &domain.finals, live)
}

// All that is queued, for each domain in turn.
#[tactic(auto, using(crate::proofs::OfScheduled::ListLemmas::flat_map_more))]
pub(crate) fn all_queued(alloc: Global, heap: &SlowHeap) -> Result<Vec<Entry>, AllocError>
    requires { heap.now.cut ≡ queues heap.now }
    ensures { IfOk result (λ v. v.items ≡ queued_in heap.now) }
{
    let live = heap.reach()?;
    let state = heap.state();
    let mut entries = Vec::new(alloc);
    let domains = &state.domains;
    'domains: for d in 0..domains.items.len() {
        // More domains than 32 bits count would fill more than all memory.
        let domain = u32::try_from(d).map_err(|_| AllocError)?;
        let places = dead_finals(alloc, state, d, &live)?;
        push_queue(&mut entries, domain, places)?;
    }
    Ok(entries)
}
