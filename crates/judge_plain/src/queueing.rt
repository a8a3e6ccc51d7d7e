//! Finalisers that a collection queues, and those that run.
ghost use Rattle.std.specs.Prelude.{◌≡◌, ◌≢◌, ◌++◌, ◌∷◌, [], ◌<◌, ◌&&◌, IfOk, OnOk, OnErr, IsTrue, ◌↔◌, map, reverse, drop, remove, length, not, nat_lt, slice_get, Some};
ghost use Rattle.std.specs.List.{list_all};
ghost use Rattle.model_core.specs.Graph.{has_label};
ghost use Rattle.model_core.specs.Domains.{domain_at, with_domain, queues, roots, settled_reach};
ghost use Rattle.model_core.specs.Reach.{reachable};
ghost use Rattle.model_core.specs.Entries.{next, is_rising as rises, is_some_and, without_places, at_places, queued_final, with_queued, without_first, QueueAllowed, LastAllowed, RanAllowed};
ghost use Rattle.judge_plain.specs.Follows.{Follows};

use crate::looks::{is_dead_at, is_gone_at};
use crate::registers::set_register;
use crate::roots::{reach_at_cut, settled};
use model_core::entry::{Entry, Places};
use model_core::graph::Value;
use model_core::label::Label;
use model_core::reply::{Applied, ApplyFault, Reply};
use model_core::sequence::{Sequence, at, with_last};
use model_core::state::{DomainState, Finaliser, Mode, Pending, State};
use std::alloc::{AllocError, Global};

// The entry that queues registrations of `finalise`.
pub(crate) fn queue_entry(
    alloc: Global,
    state: &mut State,
    d: usize,
    places: &Places,
) -> Result<Applied, ApplyFault>
    requires { d < length state.old.domains }
    ensures { Follows state.old state.new (Entry.Queue d places.now) result }
{
    let live = reach_at_cut(alloc, state)?;
    if !is_queue_allowed(state, d, places, &live) {
        return Err(ApplyFault::NotLegal);
    }
    let domains = &state.domains;
    let queue = queue_with(alloc, &domains.items[d], places)?;
    move_finals(state, d, places, queue);
    Ok(Applied::Silent)
}

// Whether these registrations of `finalise` may be queued.
fn is_queue_allowed(state: &State, d: usize, places: &Places, live: &Vec<Label>) -> bool
    requires domain { d < length state.now.domains }
    requires live { live.now.items ≡ reachable state.now.graph (roots state.now state.now.cut) }
    ensures { IsTrue result ↔ QueueAllowed state.now d places.now }
{
    let domains = &state.domains;
    let domain = &domains.items[d];
    state.mode == Mode::Cut
        && is_rising(places)
        && are_below(places, domain.low)
        && are_dead(places, &domain.finals, live)
}

// Whether the places rise, and are at least one.
pub(crate) fn is_rising(places: &Places) -> bool
    ensures { result ≡ rises places.now }
{
    let count = places.items.len();
    if count == 0 {
        return false;
    }
    for i in 0..count - 1 {
        if places.items[i] >= places.items[i + 1] {
            return false;
        }
    }
    true
}

// Whether all places are below a bound.
fn are_below(places: &Places, low: u64) -> bool
    ensures { result ≡ list_all (λ p. nat_lt p low) places.now }
{
    places.items.iter().all(|p| u64::from(*p) < low)
}

// Whether the registrations at these places have dead values.
fn are_dead(places: &Places, finals: &Sequence<Finaliser>, live: &Vec<Label>) -> bool
    ensures { result ≡ list_all (λ p. is_some_and (λ f. not (has_label live.now.items f.label)) (slice_get finals.now p)) places.now }
{
    places
        .items
        .iter()
        .all(|p| is_dead_at(finals, *p as usize, live))
}

// A domain's queue with the registrations at these places, the last first.
fn queue_with(
    alloc: Global,
    domain: &DomainState,
    places: &Places,
) -> Result<Sequence<Pending>, AllocError>
    ensures { IfOk result (λ made. made ≡ domain.now.queue ++ map queued_final (at_places (reverse places.now) domain.now.finals)) }
{
    let queue = &domain.queue;
    let mut items = Vec::from_slice(alloc, &queue.items)?;
    let mut left = places.items.len();
    while left > 0 {
        left -= 1;
        push_final(&domain.finals, places.items[left] as usize, &mut items)?;
    }
    Ok(Sequence::make(items))
}

// Adds the registration at a place to a queue.
fn push_final(
    finals: &Sequence<Finaliser>,
    place: usize,
    queue: &mut Vec<Pending>,
) -> Result<(), AllocError>
    ensures { OnOk result (queue.new.items ≡ queue.old.items ++ map queued_final (at_places (place ∷ []) finals.now)) }
{
    match at(finals, place) {
        None => Ok(()),
        Some(f) => {
            queue.push(Pending::Fin {
                number: f.number,
                label: f.label,
                register: f.register,
            })?;
            Ok(())
        }
    }
}

// The registrations at these places leave their list.
fn move_finals(state: &mut State, d: usize, places: &Places, queue: Sequence<Pending>)
    requires domain { d < length state.old.domains }
    requires queue { queue ≡ (with_queued (domain_at state.old d) places.now).queue }
    ensures { state.new ≡ with_domain state.old d (with_queued (domain_at state.old d) places.now) }
{
    let domains = &mut state.domains;
    let domain = &mut domains.items[d];
    take_out(&mut domain.finals, places);
    domain.queue = queue;
    domain.low = u64::from(places.items.first().copied().unwrap_or(0));
}

// The elements at these places leave a list.
fn take_out(finals: &mut Sequence<Finaliser>, places: &Places)
    ensures { finals.new ≡ without_places places.now finals.old }
{
    let mut left = places.items.len();
    while left > 0 {
        left -= 1;
        let place = places.items[left] as usize;
        if place < finals.items.len() {
            finals.items.remove(place);
        }
    }
}

// The entry that queues a registration of `finalise_last`.
pub(crate) fn last_entry(
    alloc: Global,
    state: &mut State,
    d: usize,
    place: u32,
) -> Result<Applied, ApplyFault>
    requires { d < length state.old.domains }
    ensures { Follows state.old state.new (Entry.Last d place) result }
{
    let live = settled(alloc, state)?;
    if !is_last_allowed(state, d, place, &live) {
        return Err(ApplyFault::NotLegal);
    }
    queue_last(alloc, state, d, place)?;
    Ok(Applied::Silent)
}

// Whether a registration of `finalise_last` may be queued.
fn is_last_allowed(state: &State, d: usize, place: u32, live: &Vec<Label>) -> bool
    requires domain { d < length state.now.domains }
    requires live { live.now.items ≡ settled_reach state.now (queues state.now) }
    ensures { IsTrue result ↔ LastAllowed state.now d place }
{
    let domains = &state.domains;
    let domain = &domains.items[d];
    state.mode == Mode::Sealed
        && u64::from(place) < domain.low
        && is_gone_at(&state.graph, &domain.lasts, place as usize, live)
}

// The registration at a place leaves its list and joins the queue.
fn queue_last(alloc: Global, state: &mut State, d: usize, place: u32) -> Result<(), AllocError>
    requires domain { d < length state.old.domains }
    requires allowed { LastAllowed state.old d place }
    ensures state { OnOk result (state.new ≡ next state.old (Entry.Last d place)) }
    ensures err { OnErr result (state.new ≡ state.old) }
{
    let domains = &state.domains;
    let domain = &domains.items[d];
    let lasts = &domain.lasts;
    let f = lasts.items[place as usize];
    let queue = with_last(alloc, &domain.queue, Pending::Last { number: f.number })?;
    state.taken = with_last(alloc, &state.taken, f.label)?;
    let domains = &mut state.domains;
    let domain = &mut domains.items[d];
    let lasts = &mut domain.lasts;
    lasts.items.remove(place as usize);
    domain.queue = queue;
    domain.low = u64::from(place);
    Ok(())
}

// The entry of a finaliser that runs.
pub(crate) fn ran_entry(state: &mut State, d: usize) -> Result<Applied, ApplyFault>
    requires { d < length state.old.domains }
    ensures { Follows state.old state.new (Entry.Ran d) result }
{
    if !is_ran_allowed(state, d) {
        return Err(ApplyFault::NotLegal);
    }
    match take_first(state, d) {
        Pending::Fin {
            number,
            label,
            register,
        } => {
            set_register(state, d, register, Value::Block(label));
            Ok(Applied::Replied(Reply::Fin { number, label }))
        }
        Pending::Last { number } => Ok(Applied::Replied(Reply::Last { number })),
    }
}

// Whether a domain may run the first finaliser of its queue.
fn is_ran_allowed(state: &State, d: usize) -> bool
    requires { d < length state.now.domains }
    ensures { IsTrue result ↔ RanAllowed state.now d }
{
    let domains = &state.domains;
    let domain = &domains.items[d];
    let queue = &domain.queue;
    state.mode == Mode::Open && !domain.ended && !queue.items.is_empty()
}

// The first finaliser leaves the queue: the domain owes the rest.
fn take_first(state: &mut State, d: usize) -> Pending
    requires domain { d < length state.old.domains }
    requires some { (domain_at state.old d).queue ≢ [] }
    ensures first { (domain_at state.old d).queue ≡ result ∷ drop 1 (domain_at state.old d).queue }
    ensures rest { state.new ≡ with_domain state.old d (without_first (domain_at state.old d) (drop 1 (domain_at state.old d).queue)) }
{
    let domains = &mut state.domains;
    let domain = &mut domains.items[d];
    let queue = &mut domain.queue;
    let first = queue.items.remove(0);
    domain.due = queue.items.len() as u64;
    first
}
