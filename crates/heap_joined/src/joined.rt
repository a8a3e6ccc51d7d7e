//! Domains that are given back at once.
ghost use Rattle.std.specs.Prelude.{◌≡◌, ◌<◌, length};
ghost use Rattle.model_core.specs.History.{Legal};
ghost use Rattle.heap_rule.specs.Ending.{AllBegin, AllIn};
ghost use Rattle.heap_rule.specs.Limits.{sizes_in};

use heap_rule::{Domain, Heap};
use std::marker::Model;

/// Domains that were given back at once. Contracts see the heap's numbers, and the one history that all of them had seen then.
#[derive(Drop)]
pub struct Joined {
    last: Domain,
}

impl Model for Joined {
    ghost use Rattle.model_core.specs.History.{Legal};
    ghost use Rattle.heap_rule.specs.Ending.{EndedHeap};
    ghost use Rattle.heap_rule.specs.Limits.{sizes_in};

    ghost Value = { EndedHeap };

    ghost view = { λ j. record { sizes = sizes_in j.last.config; history = j.last.view.seen.front } };

    ghost invariant = { λ j. Legal (sizes_in j.last.config) j.last.view.seen.front };
}

impl Joined {
    /// The history is legal for the heap's numbers of domains, minor words and pools.
    pub fn shows_legal(&self)
        ensures { Legal self.now.sizes self.now.history }
    {
        let _last = &self.last;
    }
}

/// Takes these domains of a heap back, of which there is at least one. There is one history that begins with the front of
/// each, and has no other entry of it. A domain that isn't handed in may have further entries, and goes on.
pub fn join_all(heap: &Heap, domains: Vec<Domain>) -> Joined
    requires here { AllIn heap.now domains.items }
    requires some { 0 < length domains.items }
    ensures sizes { result.sizes ≡ sizes_in heap.now.config }
    ensures legal { Legal result.sizes result.history }
    ensures fronts { AllBegin result.history domains.items }
{
    let mut domains = domains;
    heap.meet_all(&mut domains);
    let Some(last) = domains.pop() else {
        unreachable!()
    };
    Joined { last }
}
