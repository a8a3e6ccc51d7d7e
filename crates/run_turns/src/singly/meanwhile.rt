//! What is done between two turns.
ghost use Rattle.std.specs.Prelude.{◌≡◌};
ghost use Rattle.heap_rule.specs.Token.{SharedHeap};

use crate::DomainRun;
use crate::singly::turning::Came;
use heap_rule::Heap;
use std::sync::Wait;

/// What whoever waits for a command does between two turns of its domain. What it changes beside itself is kept by
/// another, and is as it was before after each.
pub trait Meanwhile<K> {
    /// Whether it can be done for a domain of this heap, with what is kept.
    ghost fits: { SharedHeap → Self → K → Type 0 };

    /// What is done before a turn.
    fn before_turn(&mut self)
        ensures fits { (h : SharedHeap) (k : K) → fits h self.old k → fits h self.new k };

    /// What is done behind a turn that came so far, by which the command wasn't made.
    fn behind_turn<R: Wait>(&mut self, rt: &R, heap: &Heap, kept: &mut K, came: Came)
        requires fits { fits heap.now self.old kept.old }
        ensures fits { fits heap.now self.new kept.new }
        ensures same { kept.new ≡ kept.old };

    /// What is done behind the turn by which the command was made.
    fn behind_last(&mut self, run: &DomainRun);
}

/// Nothing is done between two turns: the domain is alone in its heap.
#[derive(Clone, Copy, Debug)]
pub struct Alone;

impl Meanwhile<()> for Alone {
    ghost fits = { λ h s k. k ≡ k };

    fn before_turn(&mut self) {}

    fn behind_turn<R: Wait>(&mut self, _rt: &R, _heap: &Heap, _kept: &mut (), _came: Came) {}

    fn behind_last(&mut self, _run: &DomainRun) {}
}
