//! The threads. A trace whose thread is refused is turned by the caller.
ghost use Rattle.std.specs.Prelude.{◌≡◌, ◌≢◌, ◌<◌, ◌≤◌, ℕ, [], true, length, vec_len, vec_capacity, slice_get, slice_index_or, slice_set, Some};
ghost use Rattle.run_threads.specs.Driven.{AllAre, AllFollow, Driven};
ghost use Rattle.run_threads.specs.Placing.{Began, Stands};

use crate::alone::drive_alone;
use crate::beside::turn_beside;
use crate::place::{Place, SameTrace};
use crate::rotation::{MOST_TRACES, rotate};
use crate::signals::{Events, Signals};
use crate::trace::{Trace, Went};
use crate::turning::{Told, Worked, turn_on, turn_to_end};
use std::snapshot::Snapshot;
use std::sync::Wait;
use std::sync::atomic::Ordering;
use std::thread::{Scope, Threads};
use std::{mem, thread};
use text_ends::Gate;

// Larger traces have no places on a thread's stack.
const MOST_SIZE: usize = 1 << 16;

// What a thread does. The caller does it too where the thread was refused, once it has put the bit of its place into `refused`.
fn work<S, T: Trace<S>, R: Wait, G: Gate>(
    rt: &R,
    shared: &S,
    gate: &G,
    signals: &Signals,
    bit: u32,
    trace: T,
) -> Worked<T>
    requires { T.shares shared.now trace }
    ensures here { T.shares shared.now result.trace }
    ensures follows { T.follows trace result.trace }
    ensures over { result.went ≡ Went.Ended → T.is_over result.trace }
{
    if signals.refused.load(Ordering::SeqCst) == bit {
        return Worked {
            trace,
            told: Told::NOTHING,
            went: Went::On,
        };
    }
    let worked = turn_on(
        rt,
        shared,
        gate,
        &signals.events,
        false,
        &signals.called,
        trace,
    );
    signals.returned.fetch_or(bit, Ordering::SeqCst);
    signals.events.tell();
    worked
}

// Starts a thread for the trace of a place, or keeps it here where the thread is refused.
fn start<'s, E, S: Sync, T: Trace<S> + Send + Drop + 's, R: Threads + Wait + Sync, G: Gate + Sync>(
    scope: &Scope<'s, E>,
    rt: &'s R,
    shared: &'s S,
    gate: &'s G,
    signals: &'s Signals,
    bit: u32,
    trace: T,
) -> Place<S, T>
    requires { T.shares shared.now trace }
    ensures stands { Stands T.shares T.is_over shared.now result }
    ensures began { Began T.follows trace result }
{
    let promise = SameTrace {
        shared: Snapshot::of(shared),
        trace: Snapshot::of(&trace),
    };
    match scope.spawn_with(promise, move || {
        work(rt, shared, gate, signals, bit, trace)
    }) {
        Ok(child) => Place::Away(child),
        Err(error) => {
            signals.refused.store(bit, Ordering::SeqCst);
            let back = (error.value)();
            signals.refused.store(0, Ordering::SeqCst);
            signals.events.leave();
            let Worked { trace, told, went } = back;
            Place::Here { trace, told, went }
        }
    }
}

// The place of a trace: the first one is here, and each other one in a thread.
fn place_of<
    's,
    E,
    S: Sync,
    T: Trace<S> + Send + Drop + 's,
    R: Threads + Wait + Sync,
    G: Gate + Sync,
>(
    scope: &Scope<'s, E>,
    rt: &'s R,
    shared: &'s S,
    gate: &'s G,
    signals: &'s Signals,
    at: usize,
    trace: T,
) -> Place<S, T>
    requires few { at < MOST_TRACES }
    requires here { T.shares shared.now trace }
    ensures stands { Stands T.shares T.is_over shared.now result }
    ensures began { Began T.follows trace result }
{
    if at == 0 {
        Place::Here {
            trace,
            told: Told::NOTHING,
            went: Went::On,
        }
    } else {
        start(scope, rt, shared, gate, signals, 1 << at, trace)
    }
}

// Puts the place of a trace where none was.
fn put<S, T: Trace<S> + Drop>(places: &mut [Place<S, T>], at: usize, place: Place<S, T>)
    requires { at < length places.old }
    ensures { places.new ≡ slice_set places.old at place }
{
    places[at] = place;
}

// Takes the place of a trace.
fn take<S, T: Trace<S> + Drop>(places: &mut [Place<S, T>], at: usize) -> Place<S, T>
    requires { at < length places.old }
    ensures place { (e : _) → result ≡ slice_index_or places.old at e }
    ensures places { places.new ≡ slice_set places.old at Place.Empty }
{
    mem::replace(&mut places[at], Place::Empty)
}

// Puts each trace at its place.
fn place_all<
    's,
    E,
    S: Sync,
    T: Trace<S> + Send + Drop + 's,
    R: Threads + Wait + Sync,
    G: Gate + Sync,
>(
    scope: &Scope<'s, E>,
    rt: &'s R,
    shared: &'s S,
    gate: &'s G,
    signals: &'s Signals,
    traces: &mut Vec<T>,
    places: &mut [Place<S, T>],
)
    requires few { length traces.old.items ≤ length places.old }
    requires most { length places.old ≡ MOST_TRACES }
    requires here { AllAre (T.shares shared.now) traces.old.items }
    requires stand { AllAre (Stands T.shares T.is_over shared.now) places.old }
    ensures stand { AllAre (Stands T.shares T.is_over shared.now) places.new }
    ensures began { (k : ℕ) (d : T) (e : _) → k < length traces.old.items → Began T.follows (slice_index_or traces.old.items k d) (slice_index_or places.new k e) }
    ensures many { length places.new ≡ length places.old }
    ensures empty { traces.new.items ≡ [] }
    ensures capacity { vec_capacity traces.new ≡ vec_capacity traces.old }
{
    'traces: while let Some(trace) = traces.pop() {
        let at = traces.len();
        put(
            places,
            at,
            place_of(scope, rt, shared, gate, signals, at, trace),
        );
    }
}

// What a thread gave back, turned to its end.
fn ended_work<S, T: Trace<S>, R: Wait, G: Gate>(
    rt: &R,
    shared: &S,
    gate: &G,
    events: &Events,
    worked: Worked<T>,
) -> T
    requires over { worked.went ≡ Went.Ended → T.is_over worked.trace }
    requires here { T.shares shared.now worked.trace }
    ensures here { T.shares shared.now result }
    ensures follows { T.follows worked.trace result }
    ensures over { T.is_over result }
{
    let Worked { trace, went, .. } = worked;
    if went == Went::Ended {
        trace
    } else {
        turn_to_end(rt, shared, gate, events, trace)
    }
}

// The trace of a place, turned to its end.
fn ended_trace<S, T: Trace<S> + Drop, R: Threads + Wait, G: Gate>(
    rt: &R,
    shared: &S,
    gate: &G,
    events: &Events,
    place: Place<S, T>,
) -> T
    requires stands { Stands T.shares T.is_over shared.now place }
    requires some { place ≢ Place.Empty }
    ensures here { T.shares shared.now result }
    ensures over { T.is_over result }
    ensures follows { (began : T) → Began T.follows began place → T.follows began result }
{
    let worked = match place {
        Place::Here { trace, told, went } => Worked { trace, told, went },
        Place::Away(child) => child.join(rt),
        Place::Empty => unreachable!(),
    };
    ended_work(rt, shared, gate, events, worked)
}

// Takes the traces from the first places, each turned to its end.
fn take_ended<S, T: Trace<S> + Drop, R: Threads + Wait, G: Gate>(
    rt: &R,
    shared: &S,
    gate: &G,
    events: &Events,
    places: &mut [Place<S, T>],
    count: usize,
    traces: &mut Vec<T>,
)
    requires few { count ≤ length places.old }
    requires room { count ≤ vec_capacity traces.old }
    requires empty { traces.old.items ≡ [] }
    requires stand { AllAre (Stands T.shares T.is_over shared.now) places.old }
    requires some { (k : ℕ) (e : _) → k < count → slice_index_or places.old k e ≢ Place.Empty }
    ensures many { length traces.new.items ≡ count }
    ensures here { AllAre (T.shares shared.now) traces.new.items }
    ensures over { AllAre T.is_over traces.new.items }
    ensures follow { (k : ℕ) (began : T) (d : T) (e : _) → k < count → Began T.follows began (slice_index_or places.old k e) → T.follows began (slice_index_or traces.new.items k d) }
{
    'places: for at in 0..count {
        let place = take(places, at);
        traces.push_reserved(ended_trace(rt, shared, gate, events, place));
    }
}

// Turns each trace to its end: the first here, and each other one in a thread of its own until its commands are over.
fn drive_each<
    's,
    E,
    S: Sync,
    T: Trace<S> + Send + Drop + 's,
    R: Threads + Wait + Sync,
    G: Gate + Sync,
>(
    scope: &Scope<'s, E>,
    rt: &'s R,
    shared: &'s S,
    gate: &'s G,
    signals: &'s Signals,
    traces: &mut Vec<T>,
)
    requires few { length traces.old.items ≤ MOST_TRACES }
    requires here { AllAre (T.shares shared.now) traces.old.items }
    ensures here { AllAre (T.shares shared.now) traces.new.items }
    ensures follow { AllFollow T.follows traces.old.items traces.new.items }
    ensures over { AllAre T.is_over traces.new.items }
{
    let count = traces.len();
    let first = Place::Empty;
    if MOST_SIZE < mem::size_of_val(&first) {
        rotate(rt, shared, gate, &Events::of(1), traces);
        return;
    }
    let mut places = [
        first,
        Place::Empty,
        Place::Empty,
        Place::Empty,
        Place::Empty,
        Place::Empty,
        Place::Empty,
        Place::Empty,
    ];
    place_all(scope, rt, shared, gate, signals, traces, &mut places);
    turn_beside(rt, shared, gate, signals, &mut places);
    take_ended(
        rt,
        shared,
        gate,
        &signals.events,
        &mut places,
        count,
        traces,
    );
}

/// Turns each trace until it has ended: the first in this thread, and each other one in a thread of its own, or in
/// this one where its thread is refused. They come back in their order. No memory is taken. A trace that is
/// idle comes back to this thread, and so does the last one that isn't where it waits: this thread turns what it has
/// in rotation, and idle traces only where no other one goes on. More than eight traces are all turned in this
/// thread. A thread whose traces wait for others spins for some microseconds and then sleeps until another trace goes
/// on without a command. Where a trace never ends this call waits without end.
///
/// The gate is called with a trace's number and the index of a command before the command's first turn, and once
/// its reply is kept.
#[inline(never)]
pub fn drive<S: Sync, T: Trace<S> + Send + Drop, R: Threads + Wait + Sync, G: Gate + Sync>(
    rt: &R,
    shared: &S,
    traces: Vec<T>,
    gate: &G,
) -> Vec<T>
    requires here { (i : ℕ) (t : T) → slice_get traces.items i ≡ Some t → T.shares shared.now t }
    ensures driven { Driven T.shares T.follows T.is_over shared.now traces.items result.items }
{
    let count = traces.len();
    if count < 2 || MOST_TRACES < count {
        return drive_alone(rt, shared, traces, gate);
    }
    let signals = Signals::of(count as u32);
    let told = &signals;
    thread::scope(
        thread::scope_env(),
        rt,
        move |scope| -> Vec<T>
            requires { (vec_len traces ≤ MOST_TRACES) × AllAre (T.shares shared.now) traces.items }
            ensures { AllAre (T.shares shared.entry.now) result.items × AllFollow T.follows traces.items result.items × AllAre T.is_over result.items }
        {
            let mut traces = traces;
            drive_each(scope, rt, shared, gate, told, &mut traces);
            traces
        },
    )
}
