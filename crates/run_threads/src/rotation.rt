//! The traces that the caller turns: one turn of each, again and again.
ghost use Rattle.std.specs.Prelude.{◌≡◌, length, vec_capacity};
ghost use Rattle.run_threads.specs.Driven.{AllAre, AllFollow};

use crate::signals::Events;
use crate::taking::{put_back, take_out};
use crate::trace::{Trace, Went};
use crate::turning::{Told, turn_once, turn_to_end};
use crate::waiting::Waiter;
use std::sync::Wait;
use text_ends::Gate;

// How many traces share one thing at most.
pub(crate) const MOST_TRACES: usize = 8;

// One turn of each trace. It answers how far they came: nowhere only where none did anything, and none is held.
#[inline(always)]
fn turn_each<S, T: Trace<S>, G: Gate>(
    shared: &S,
    gate: &G,
    events: &Events,
    told: &mut [Told; 8],
    traces: &mut [T],
) -> Went
    requires { AllAre (T.shares shared.now) traces.old }
    ensures here { AllAre (T.shares shared.now) traces.new }
    ensures follow { AllFollow T.follows traces.old traces.new }
    ensures over { result ≡ Went.Ended → AllAre T.is_over traces.new }
{
    let mut all = true;
    let mut some = false;
    let mut held = false;
    for trace in traces.iter_mut() {
        let place = trace.number(shared) as usize;
        match turn_once(shared, gate, events, &mut told[place], trace) {
            Went::On | Went::Arrived => {
                all = false;
                some = true;
            }
            Went::Nowhere | Went::Idle => all = false,
            Went::Held => {
                all = false;
                held = true;
            }
            Went::Ended => (),
        }
    }
    if all {
        Went::Ended
    } else if some {
        Went::On
    } else if held {
        Went::Held
    } else {
        Went::Nowhere
    }
}

// Turns the only trace of a list until it has ended.
fn turn_only<S, T: Trace<S> + Drop, R: Wait, G: Gate>(
    rt: &R,
    shared: &S,
    gate: &G,
    events: &Events,
    traces: &mut Vec<T>,
)
    requires one { length traces.old.items ≡ 1 }
    requires here { AllAre (T.shares shared.now) traces.old.items }
    ensures here { AllAre (T.shares shared.now) traces.new.items }
    ensures follow { AllFollow T.follows traces.old.items traces.new.items }
    ensures over { AllAre T.is_over traces.new.items }
    ensures capacity { vec_capacity traces.new ≡ vec_capacity traces.old }
{
    let trace = take_out(traces, 0);
    let trace = turn_to_end(rt, shared, gate, events, trace);
    put_back(traces, 0, trace);
}

// Turns these traces until all have ended, in rotation where there are several. It waits only where none of them went on, so that it never waits for one that it turns itself.
pub(crate) fn rotate<S, T: Trace<S> + Drop, R: Wait, G: Gate>(
    rt: &R,
    shared: &S,
    gate: &G,
    events: &Events,
    traces: &mut Vec<T>,
)
    requires { AllAre (T.shares shared.now) traces.old.items }
    ensures here { AllAre (T.shares shared.now) traces.new.items }
    ensures follow { AllFollow T.follows traces.old.items traces.new.items }
    ensures over { AllAre T.is_over traces.new.items }
    ensures capacity { vec_capacity traces.new ≡ vec_capacity traces.old }
{
    if traces.len() == 1 {
        turn_only(rt, shared, gate, events, traces);
        return;
    }
    let mut waiter = Waiter::new(&events.sleepers);
    let mut told = [Told::NOTHING; MOST_TRACES];
    'turns: for _ in rt.forever() {
        let announced = waiter.announced();
        match turn_each(shared, gate, events, &mut told, traces.as_mut_slice()) {
            Went::On | Went::Arrived => waiter.went_on(),
            Went::Nowhere | Went::Idle => waiter.wait(rt, announced),
            Went::Held => waiter.held(),
            Went::Ended => return,
        }
    }
    unreachable!()
}
