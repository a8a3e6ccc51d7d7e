//! All traces turned by the caller, with no further thread.
ghost use Rattle.std.specs.Prelude.{◌≡◌, ℕ, slice_get, Some};
ghost use Rattle.run_threads.specs.Driven.{Driven};

use crate::rotation::rotate;
use crate::signals::Events;
use crate::trace::Trace;
use std::sync::Wait;
use text_ends::Gate;

/// Turns all traces in this thread, one turn of each in rotation from the first on, until they have ended. They
/// come back in their order. No memory is taken. As with [`drive`](crate::drive), where a trace never ends this call
/// waits without end.
///
/// The gate is called with a trace's number and the index of a command before the command's first turn, and once
/// its reply is kept.
pub fn drive_alone<S, T: Trace<S> + Drop, R: Wait, G: Gate>(
    rt: &R,
    shared: &S,
    traces: Vec<T>,
    gate: &G,
) -> Vec<T>
    requires here { (i : ℕ) (t : T) → slice_get traces.items i ≡ Some t → T.shares shared.now t }
    ensures driven { Driven T.shares T.follows T.is_over shared.now traces.items result.items }
{
    let events = Events::of(1);
    let mut traces = traces;
    rotate(rt, shared, gate, &events, &mut traces);
    traces
}
