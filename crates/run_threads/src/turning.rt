//! The turns of one trace, with the gate around each command.
ghost use Rattle.std.specs.Prelude.{◌≡◌, true};

use crate::signals::Events;
use crate::trace::{Trace, Went};
use crate::waiting::Waiter;
use std::sync::Wait;
use std::sync::atomic::{AtomicU32, Ordering};
use text_ends::Gate;

// What was told of a trace.
#[derive(Clone, Copy)]
pub(crate) struct Told {
    // The index of the command that the gate was told of last.
    pub(crate) command: u32,
    // How often it has come to where each waits for all.
    pub(crate) arrivals: u64,
}

impl Told {
    // No command has this index.
    pub(crate) const NOTHING: Told = Told {
        command: u32::MAX,
        arrivals: 0,
    };
}

// Tells the gate of the next command, if one is left that it wasn't told of.
#[inline(always)]
fn tell_before<S, T: Trace<S>, G: Gate>(shared: &S, gate: &G, told: &mut Told, trace: &T)
    requires { T.shares shared.now trace.now }
{
    let at = trace.next_index();
    if trace.has_next() && told.command != at {
        told.command = at;
        gate.before(trace.number(shared), at);
    }
}

// One turn, with the gate around the command, if one is left. Where it went on without a command others that
// wait may go on too: it may have come to a pause, asked for one, or ended.
#[inline(always)]
pub(crate) fn turn_once<S, T: Trace<S>, G: Gate>(
    shared: &S,
    gate: &G,
    events: &Events,
    told: &mut Told,
    trace: &mut T,
) -> Went
    requires { T.shares shared.now trace.old }
    ensures here { T.shares shared.now trace.new }
    ensures follows { T.follows trace.old trace.new }
    ensures over { result ≡ Went.Ended → T.is_over trace.new }
{
    let at = trace.next_index();
    tell_before(shared, gate, told, trace);
    let went = trace.turn(shared);
    if trace.next_index() != at {
        gate.after(trace.number(shared), at);
    } else if went == Went::On {
        events.tell();
    }
    went
}

// How far a trace came whose turn came so far: one that has arrived as the last goes on at once.
#[inline(always)]
pub(crate) fn arrived(events: &Events, waiter: &mut Waiter<'_>, told: &mut Told, went: Went) -> Went
    ensures { result ≡ Went.Ended → went ≡ Went.Ended }
{
    if went == Went::Arrived && waiter.arrives_last(events, &mut told.arrivals) {
        Went::On
    } else {
        went
    }
}

// Turns a trace as long as it goes on. Answers how far the last turn came, and whether one before it went on.
#[inline(always)]
pub(crate) fn turn_while_on<S, T: Trace<S>, R: Wait, G: Gate>(
    rt: &R,
    shared: &S,
    gate: &G,
    events: &Events,
    waiter: &mut Waiter<'_>,
    told: &mut Told,
    trace: &mut T,
) -> (Went, bool)
    requires { T.shares shared.now trace.old }
    ensures here { T.shares shared.now trace.new }
    ensures follows { T.follows trace.old trace.new }
    ensures over { result.0 ≡ Went.Ended → T.is_over trace.new }
{
    let mut some = false;
    'turns: for _ in rt.forever() {
        let went = turn_once(shared, gate, events, told, trace);
        if went != Went::On {
            let went = arrived(events, waiter, told, went);
            if went != Went::On {
                return (went, some || went == Went::Arrived);
            }
        }
        some = true;
    }
    unreachable!()
}

// What turns of a trace came to: the trace, what was told of it, and how far the last turn came.
#[derive(Drop)]
pub(crate) struct Worked<T> {
    pub(crate) trace: T,
    pub(crate) told: Told,
    pub(crate) went: Went,
}

// Whether the turns of a trace end here that didn't go on: where it has ended, or, unless it stays, where it is idle or the caller calls
// for it.
#[inline(never)]
fn is_done(stays: bool, called: &AtomicU32, went: Went) -> bool
    ensures { stays ≡ true → result ≡ true → went ≡ Went.Ended }
{
    match went {
        Went::Ended => true,
        Went::Idle => !stays,
        Went::On | Went::Arrived | Went::Nowhere | Went::Held => !stays
            && called.load(Ordering::SeqCst) != 0,
    }
}

// Turns a trace until it has ended, or, unless it stays, until it is given back.
pub(crate) fn turn_on<S, T: Trace<S>, R: Wait, G: Gate>(
    rt: &R,
    shared: &S,
    gate: &G,
    events: &Events,
    stays: bool,
    called: &AtomicU32,
    mut trace: T,
) -> Worked<T>
    requires { T.shares shared.now trace }
    ensures here { T.shares shared.now result.trace }
    ensures follows { T.follows trace result.trace }
    ensures over { result.went ≡ Went.Ended → T.is_over result.trace }
    ensures stays { stays ≡ true → result.went ≡ Went.Ended }
{
    let mut waiter = Waiter::new(&events.sleepers);
    let mut told = Told::NOTHING;
    'turns: for _ in rt.forever() {
        let announced = waiter.announced();
        let (went, some) = turn_while_on(
            rt,
            shared,
            gate,
            events,
            &mut waiter,
            &mut told,
            &mut trace,
        );
        if some {
            waiter.went_on();
        }
        if is_done(stays, called, went) {
            return Worked { trace, told, went };
        }
        if went == Went::Arrived {
            waiter.meet(rt, events);
        } else {
            waiter.rest(rt, went, if some { None } else { announced });
        }
    }
    unreachable!()
}

// Turns a trace until it has ended.
pub(crate) fn turn_to_end<S, T: Trace<S>, R: Wait, G: Gate>(
    rt: &R,
    shared: &S,
    gate: &G,
    events: &Events,
    trace: T,
) -> T
    requires { T.shares shared.now trace }
    ensures here { T.shares shared.now result }
    ensures follows { T.follows trace result }
    ensures over { T.is_over result }
{
    let uncalled = AtomicU32::new(0);
    turn_on(rt, shared, gate, events, true, &uncalled, trace).trace
}
