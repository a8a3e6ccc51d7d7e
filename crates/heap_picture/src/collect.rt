//! The steps of a complete collection, which takes all that it may.
ghost use Rattle.std.specs.Prelude.{◌≡◌, ◌++◌, ◌∷◌, [], cond, length, min, slice_get, OnOk, IfOk, Some};
ghost use Rattle.model_core.specs.History.{command_of};
ghost use Rattle.heap_picture.specs.Fates.{fate_of, may_go as goes, reached_in};
ghost use Rattle.heap_picture.specs.Takes.{final_places as places_of_finals, key_places as places_of_keys, keys_of};
ghost use Rattle.heap_picture.specs.Steps.{queued_at, with_finals_queued, wiped_where, wiped_at, wiped_upto, last_queued_at, with_lasts_queued, collected};
ghost use Rattle.model_core.specs.Domains.{domain_at};
ghost use Rattle.model_core.specs.Entries.{is_some_and, next};
ghost use Rattle.heap_picture.specs.Plays.{Plays};

use crate::fates::{Fate, Fates, may_go, may_run};
use judge_plain::SlowHeap;
use model_core::entry::{Entry, Places};
use model_core::graph::Node;
use model_core::label::Label;
use model_core::reply::ApplyFault;
use model_core::sequence::Sequence;
use model_core::state::{Finaliser, State};
use std::alloc::{AllocError, Global};

// Follows an entry, where it is legal.
pub(crate) fn follow(heap: &mut SlowHeap, entry: &Entry) -> Result<(), ApplyFault>
    ensures plays { OnOk result (Plays heap.old heap.new (command_of 0 entry.now)) }
    ensures state { OnOk result (heap.new ≡ next heap.old entry.now) }
{
    if !heap.is_in_range(entry) {
        return Err(ApplyFault::NotLegal);
    }
    heap.apply(entry)?;
    Ok(())
}

// Adds a place that passes a test.
fn push_place(places: &mut Vec<u32>, place: usize, passes: bool) -> Result<(), AllocError>
    ensures { OnOk result (places.new.items ≡ places.old.items ++ cond passes (place ∷ []) []) }
{
    if passes {
        // A list with more elements than 32 bits count would fill more than all memory.
        let place = u32::try_from(place).map_err(|_| AllocError)?;
        places.push(place)?;
    }
    Ok(())
}

// The places of the registrations of `finalise` that may be queued.
fn final_places(
    alloc: Global,
    fates: &Fates,
    finals: &Sequence<Finaliser>,
) -> Result<Places, AllocError>
    ensures { IfOk result (λ p. p ≡ places_of_finals fates.now finals.now) }
{
    let mut places = Vec::new(alloc);
    for (i, f) in finals.items.iter().enumerate() {
        push_place(&mut places, i, may_run(fates.fate(f.label)))?;
    }
    Ok(Places::make(places))
}

// The places of the keys that may be emptied.
fn key_places(
    alloc: Global,
    fates: &Fates,
    keys: &Sequence<Option<Label>>,
) -> Result<Places, AllocError>
    ensures { IfOk result (λ p. p ≡ places_of_keys fates.now keys.now) }
{
    let mut places = Vec::new(alloc);
    for (i, key) in keys.items.iter().enumerate() {
        push_place(&mut places, i, fates.may_empty(*key))?;
    }
    Ok(Places::make(places))
}

// The places of the registrations of `finalise` in domain 0 that may be queued.
fn finals_of(alloc: Global, heap: &SlowHeap) -> Result<Places, AllocError>
    ensures { IfOk result (λ p. p ≡ places_of_finals (reached_in heap.now) (domain_at heap.now 0).finals) }
{
    let fates = Fates::of(heap)?;
    let state = heap.state();
    let domains = &state.domains;
    match domains.items.first() {
        Some(domain) => final_places(alloc, &fates, &domain.finals),
        None => Ok(Places::make(Vec::new(alloc))),
    }
}

// Queues the registrations of `finalise` at these places.
fn queue(heap: &mut SlowHeap, places: Places) -> Result<(), ApplyFault>
    ensures plays { OnOk result (Plays heap.old heap.new []) }
    ensures state { OnOk result (heap.new ≡ queued_at places heap.old) }
{
    if places.items.is_empty() {
        Ok(())
    } else {
        follow(heap, &Entry::Queue { domain: 0, places })
    }
}

// Queues the finalisers of `finalise` whose blocks are not reached.
fn queue_finals(alloc: Global, heap: &mut SlowHeap) -> Result<(), ApplyFault>
    ensures plays { OnOk result (Plays heap.old heap.new []) }
    ensures state { OnOk result (heap.new ≡ with_finals_queued heap.old) }
{
    let places = finals_of(alloc, heap)?;
    queue(heap, places)
}

// The keys that may be emptied of the block at a place of the graph, if it is an ephemeron that is reached.
fn keys_at(
    alloc: Global,
    fates: &Fates,
    state: &State,
    place: usize,
) -> Result<Option<(Label, Places)>, AllocError>
    ensures { IfOk result (λ found. found ≡ keys_of fates.now (slice_get state.now.graph place)) }
{
    let graph = &state.graph;
    let Some((label, node)) = graph.items.get(place) else {
        return Ok(None);
    };
    match node {
        Node::Ephe { keys, .. } if fates.fate(*label) == Fate::Kept => {
            Ok(Some((*label, key_places(alloc, fates, keys)?)))
        }
        _ => Ok(None),
    }
}

// Empties the keys at these places of an ephemeron.
fn wipe(heap: &mut SlowHeap, label: Label, keys: Places) -> Result<(), ApplyFault>
    ensures plays { OnOk result (Plays heap.old heap.new []) }
    ensures state { OnOk result (heap.new ≡ wiped_where (Some (label, keys)) heap.old) }
{
    if keys.items.is_empty() {
        Ok(())
    } else {
        follow(heap, &Entry::Wipe { label, keys })
    }
}

// Empties the keys that may be emptied of the block at a place of the graph.
fn wipe_at(
    alloc: Global,
    heap: &mut SlowHeap,
    fates: &Fates,
    place: usize,
) -> Result<(), ApplyFault>
    ensures plays { OnOk result (Plays heap.old heap.new []) }
    ensures state { OnOk result (heap.new ≡ wiped_at fates.now heap.old place) }
{
    match keys_at(alloc, fates, heap.state(), place)? {
        Some((label, keys)) => wipe(heap, label, keys),
        None => Ok(()),
    }
}

// Empties all keys that may be emptied.
fn wipe_keys(alloc: Global, heap: &mut SlowHeap, fates: &Fates) -> Result<(), ApplyFault>
    ensures plays { OnOk result (Plays heap.old heap.new []) }
    ensures state { OnOk result (heap.new ≡ wiped_upto fates.now heap.old (length heap.old.graph)) }
{
    let state = heap.state();
    let graph = &state.graph;
    for place in 0..graph.items.len() {
        wipe_at(alloc, heap, fates, place)?;
    }
    Ok(())
}

// Whether the registration of `finalise_last` at a place in domain 0 may be queued.
fn may_queue_last(fates: &Fates, state: &State, place: usize) -> bool
    ensures { result ≡ is_some_and (λ f. goes (fate_of fates.now f.label)) (slice_get (domain_at state.now 0).lasts place) }
{
    let domains = &state.domains;
    let Some(domain) = domains.items.first() else {
        return false;
    };
    let lasts = &domain.lasts;
    match lasts.items.get(place) {
        Some(f) => may_go(fates.fate(f.label)),
        None => false,
    }
}

// Queues the registration of `finalise_last` at a place, if it may be queued.
fn queue_last(heap: &mut SlowHeap, fates: &Fates, place: u32) -> Result<(), ApplyFault>
    ensures plays { OnOk result (Plays heap.old heap.new []) }
    ensures state { OnOk result (heap.new ≡ last_queued_at fates.now heap.old place) }
{
    if may_queue_last(fates, heap.state(), place as usize) {
        follow(heap, &Entry::Last { domain: 0, place })
    } else {
        Ok(())
    }
}

// How many registrations of `finalise_last` domain 0 has, as far as 32 bits count.
fn count_lasts(state: &State) -> u32
    ensures { result ≡ min (length (domain_at state.now 0).lasts) 4294967295 }
{
    let domains = &state.domains;
    let Some(domain) = domains.items.first() else {
        return 0;
    };
    let lasts = &domain.lasts;
    u32::try_from(lasts.items.len()).unwrap_or(u32::MAX)
}

// Queues the finalisers of `finalise_last` whose blocks are gone, the newest first.
fn queue_lasts(heap: &mut SlowHeap, fates: &Fates) -> Result<(), ApplyFault>
    ensures plays { OnOk result (Plays heap.old heap.new []) }
    ensures state { OnOk result (heap.new ≡ with_lasts_queued fates.now heap.old) }
{
    let mut place = count_lasts(heap.state());
    while place > 0 {
        place -= 1;
        queue_last(heap, fates, place)?;
    }
    Ok(())
}

// A complete collection, up to where `full_major` may be answered.
#[tactic(auto, unfolding(crate::specs::Steps::collected))]
pub(crate) fn collect(alloc: Global, heap: &mut SlowHeap) -> Result<(), ApplyFault>
    ensures plays { OnOk result (Plays heap.old heap.new []) }
    ensures state { OnOk result (heap.new ≡ collected heap.old) }
{
    follow(heap, &Entry::Cut)?;
    queue_finals(alloc, heap)?;
    follow(heap, &Entry::Seal)?;
    let fates = Fates::of(heap)?;
    wipe_keys(alloc, heap, &fates)?;
    queue_lasts(heap, &fates)?;
    follow(heap, &Entry::Collected)
}
