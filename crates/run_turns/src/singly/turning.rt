//! One turn of a run whose domain may still arrive.
ghost use Rattle.std.specs.Prelude.{◌≡◌, true};
ghost use Rattle.heap_rule.specs.Limits.{sizes_in};
ghost use Rattle.heap_rule.specs.Token.{IsIn};
ghost use Rattle.run_turns.specs.declared.singly.turning.Came as far;
ghost use Rattle.run_turns.specs.Runs.{GoesOn, Stretches};
ghost use Rattle.run_turns.specs.Singly.Turning.{CameTo, far_of};

use crate::{DomainRun, Turned, turn};
use heap_rule::Heap;

// A domain that has arrived so often isn't turned any more.
const MOST_ARRIVALS: u64 = 1 << 60;

/// How far a turn came.
#[derive(Clone, Copy, Debug, PartialEq, Eq)]
pub enum Came {
    /// It did something.
    On,
    /// It waits for others.
    Nowhere,
    /// It has nothing left to do until the next command.
    Done,
    /// The traces of all domains have ended.
    Ended,
}

// How far a turn with this answer came.
fn reached(turned: Turned) -> Came
    ensures { result ≡ far_of turned }
{
    match turned {
        Turned::Did => Came::On,
        Turned::Held { .. } | Turned::Waiting(_) | Turned::Idle { .. } => Came::Nowhere,
        Turned::Hungry => Came::Done,
        Turned::Ended => Came::Ended,
    }
}

/// One turn, and how far it came. A domain that has arrived 2^60 times isn't turned any more.
pub fn turn_below(heap: &Heap, run: &mut DomainRun) -> Came
    requires here { IsIn run.old.token heap.now }
    ensures here { IsIn run.new.token heap.now }
    ensures came { CameTo heap.now run.old run.new result }
    ensures exact { (other : far.Came) → CameTo heap.now run.old run.new other → other ≡ result }
    ensures stretch { Stretches (sizes_in heap.now.config) run.old run.new }
    ensures goes_on { GoesOn run.old run.new }
    ensures ended { result ≡ Came.Ended → run.new.ended ≡ true }
{
    if run.domain().arrivals() >= MOST_ARRIVALS {
        return Came::Nowhere;
    }
    reached(turn(heap, run))
}
