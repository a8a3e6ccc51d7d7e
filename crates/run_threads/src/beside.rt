//! The turns of the traces that the caller has, while threads turn the others.
ghost use Rattle.std.specs.Prelude.{◌≡◌};
ghost use Rattle.run_threads.specs.Driven.{AllAre};
ghost use Rattle.run_threads.specs.Placing.{AllBegan, Began, Stands};

use crate::place::Place;
use crate::signals::{Events, Signals};
use crate::trace::{Trace, Went};
use crate::turning::{Told, Worked, arrived, turn_once, turn_while_on};
use crate::waiting::Waiter;
use std::mem;
use std::sync::Wait;
use std::sync::atomic::Ordering;
use std::thread::Threads;
use text_ends::Gate;

// How far two came of which each came so far.
fn further(one: Went, other: Went) -> Went {
    match (one, other) {
        (Went::On, _) | (_, Went::On) => Went::On,
        (Went::Held, _) | (_, Went::Held) => Went::Held,
        (Went::Nowhere, _) | (_, Went::Nowhere) => Went::Nowhere,
        (Went::Arrived, Went::Idle) | (Went::Idle, Went::Arrived) => Went::Nowhere,
        (Went::Arrived, _) | (_, Went::Arrived) => Went::Arrived,
        (Went::Idle, _) | (_, Went::Idle) => Went::Idle,
        (Went::Ended, Went::Ended) => Went::Ended,
    }
}

// One turn of a trace, or as many as it goes on.
fn turn_some<S, T: Trace<S>, R: Wait, G: Gate>(
    rt: &R,
    shared: &S,
    gate: &G,
    events: &Events,
    waiter: &mut Waiter<'_>,
    many: bool,
    told: &mut Told,
    trace: &mut T,
) -> Went
    requires { T.shares shared.now trace.old }
    ensures here { T.shares shared.now trace.new }
    ensures follows { T.follows trace.old trace.new }
    ensures over { result ≡ Went.Ended → T.is_over trace.new }
{
    let (went, some) = if many {
        turn_while_on(rt, shared, gate, events, waiter, told, trace)
    } else {
        let went = turn_once(shared, gate, events, told, trace);
        (arrived(events, waiter, told, went), false)
    };
    if some || matches!(went, Went::On | Went::Arrived) {
        waiter.went_on();
    }
    went
}

// The same of the trace of a place, if it is here and is an idle one, or else a busy one.
fn turn_at<S, T: Trace<S> + Drop, R: Wait, G: Gate>(
    rt: &R,
    shared: &S,
    gate: &G,
    events: &Events,
    waiter: &mut Waiter<'_>,
    idle: bool,
    many: bool,
    place: &mut Place<S, T>,
) -> Went
    requires { Stands T.shares T.is_over shared.now place.old }
    ensures stands { Stands T.shares T.is_over shared.now place.new }
    ensures began { (began : T) → Began T.follows began place.old → Began T.follows began place.new }
{
    let chosen = if idle {
        place.is_idle()
    } else {
        place.is_busy()
    };
    match place {
        Place::Here { trace, told, went } if chosen => {
            let came = turn_some(rt, shared, gate, events, waiter, many, told, trace);
            *went = came;
            came
        }
        Place::Empty | Place::Here { .. } | Place::Away(_) => Went::Ended,
    }
}

// How many of the traces here are busy.
fn count_busy<S, T: Trace<S>>(places: &[Place<S, T>]) -> usize {
    let mut count: usize = 0;
    'places: for place in places {
        if place.is_busy() {
            count = count.saturating_add(1);
        }
    }
    count
}

// One turn of each idle trace here, or else of each busy one: of the only busy one as many as it goes on.
fn turn_those<S, T: Trace<S> + Drop, R: Wait, G: Gate>(
    rt: &R,
    shared: &S,
    gate: &G,
    events: &Events,
    waiter: &mut Waiter<'_>,
    idle: bool,
    places: &mut [Place<S, T>],
) -> Went
    requires { AllAre (Stands T.shares T.is_over shared.now) places.old }
    ensures stand { AllAre (Stands T.shares T.is_over shared.now) places.new }
    ensures began { AllBegan T.follows places.old places.new }
{
    let many = !idle && count_busy(places) == 1;
    let mut went = Went::Ended;
    'places: for place in places.iter_mut() {
        let came = turn_at(rt, shared, gate, events, waiter, idle, many, place);
        went = further(went, came);
    }
    went
}

// One turn of each busy trace here, and, where none of these went on, of each idle one.
fn turn_here<S, T: Trace<S> + Drop, R: Wait, G: Gate>(
    rt: &R,
    shared: &S,
    gate: &G,
    events: &Events,
    waiter: &mut Waiter<'_>,
    places: &mut [Place<S, T>],
) -> Went
    requires { AllAre (Stands T.shares T.is_over shared.now) places.old }
    ensures stand { AllAre (Stands T.shares T.is_over shared.now) places.new }
    ensures began { AllBegan T.follows places.old places.new }
{
    let busy = turn_those(rt, shared, gate, events, waiter, false, places);
    if busy == Went::On {
        return busy;
    }
    let idle = turn_those(rt, shared, gate, events, waiter, true, places);
    further(busy, idle)
}

// Joins the thread that has the trace of a place, if one has and this is wished, and answers whether it did.
fn take_back<S, T: Trace<S> + Drop, R: Threads>(
    rt: &R,
    shared: &S,
    signals: &Signals,
    wished: bool,
    place: &mut Place<S, T>,
) -> bool
    requires { Stands T.shares T.is_over shared.now place.old }
    ensures stands { Stands T.shares T.is_over shared.now place.new }
    ensures began { (began : T) → Began T.follows began place.old → Began T.follows began place.new }
{
    let _shared = shared;
    if !wished || !place.is_away() {
        return false;
    }
    match mem::replace(place, Place::Empty) {
        Place::Away(child) => {
            let Worked { trace, told, went } = child.join(rt);
            signals.events.leave();
            *place = Place::Here { trace, told, went };
            true
        }
        other => {
            *place = other;
            false
        }
    }
}

// Joins the threads of the places whose bits these are, and answers whether there was one.
fn take_all_back<S, T: Trace<S> + Drop, R: Threads>(
    rt: &R,
    shared: &S,
    signals: &Signals,
    places: &mut [Place<S, T>],
) -> bool
    requires { AllAre (Stands T.shares T.is_over shared.now) places.old }
    ensures stand { AllAre (Stands T.shares T.is_over shared.now) places.new }
    ensures began { AllBegan T.follows places.old places.new }
{
    let mut left = signals.returned.load(Ordering::SeqCst);
    let mut some = false;
    if left == 0 {
        return some;
    }
    'places: for place in places.iter_mut() {
        let taken = take_back(rt, shared, signals, left & 1 == 1, place);
        some = some || taken;
        left >>= 1;
    }
    some
}

// Whether the caller turns all traces but one, and none of these is busy.
fn lacks_one<S, T: Trace<S>>(places: &[Place<S, T>]) -> bool {
    let mut away: usize = 0;
    'places: for place in places {
        if place.is_away() {
            away = away.saturating_add(1);
        }
    }
    away == 1 && count_busy(places) == 0
}

// Calls for the last trace that the caller lacks, once all that it has are idle: where it has that one too no thread waits for another.
fn call_back<S, T: Trace<S>>(signals: &Signals, places: &[Place<S, T>]) {
    if signals.called.load(Ordering::SeqCst) == 0 && lacks_one(places) {
        signals.called.store(1, Ordering::SeqCst);
        signals.events.tell();
    }
}

// The same, and where nothing went on the caller takes those traces back whose threads are about to return. Where it took one this
// counts as if a trace had gone on.
fn turn_and_take<S, T: Trace<S> + Drop, R: Threads + Wait, G: Gate>(
    rt: &R,
    shared: &S,
    gate: &G,
    signals: &Signals,
    waiter: &mut Waiter<'_>,
    places: &mut [Place<S, T>],
) -> Went
    requires { AllAre (Stands T.shares T.is_over shared.now) places.old }
    ensures stand { AllAre (Stands T.shares T.is_over shared.now) places.new }
    ensures began { AllBegan T.follows places.old places.new }
{
    let went = turn_here(rt, shared, gate, &signals.events, waiter, places);
    if matches!(went, Went::On | Went::Ended) {
        return went;
    }
    let taken = take_all_back(rt, shared, signals, places);
    if taken {
        return Went::On;
    }
    call_back(signals, places);
    went
}

// Turns the traces that the caller has, among them those that threads give back, until they have ended. Then all have, and the
// threads that are left return without it.
pub(crate) fn turn_beside<S, T: Trace<S> + Drop, R: Threads + Wait, G: Gate>(
    rt: &R,
    shared: &S,
    gate: &G,
    signals: &Signals,
    places: &mut [Place<S, T>],
)
    requires { AllAre (Stands T.shares T.is_over shared.now) places.old }
    ensures stand { AllAre (Stands T.shares T.is_over shared.now) places.new }
    ensures began { AllBegan T.follows places.old places.new }
{
    let mut waiter = Waiter::new(&signals.events.sleepers);
    'turns: for _ in rt.forever() {
        let announced = waiter.announced();
        let went = turn_and_take(rt, shared, gate, signals, &mut waiter, places);
        if went == Went::Ended {
            return;
        }
        waiter.after(rt, &signals.events, went, announced);
    }
    unreachable!()
}
