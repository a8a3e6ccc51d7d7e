//! A look at a domain's queue of finalisers.
ghost use Rattle.std.specs.Prelude.{◌≡◌};
ghost use Rattle.heap_rule.specs.declared.phase.Kind.TheVariants.{Run};
ghost use Rattle.heap_rule.specs.declared.phase.Stage.TheVariants.{In};
ghost use Rattle.heap_rule.specs.Token.{IsIn};
ghost use Rattle.step_run.specs.Queues.Looking.{QueueTold};

use heap_rule::{Domain, Heap, Leaving, PLAN, raw_load};
use std::marker::Brand;

/// A load of the plan word by a running domain. No entry stands here, and nothing changes. It tells that
/// as many finalisers wait in the domain's queue as in the state after its front. Answers the word.
pub fn queue_load(heap: &Heap, dom: &mut Domain) -> u64
    requires here { IsIn dom.old heap.now }
    requires runs { dom.old.view.seen.stage ≡ In Run }
    ensures here { IsIn dom.new heap.now }
    ensures told { QueueTold heap.now.config dom.old.view result dom.new.view }
{
    raw_load::<Brand, Leaving>(heap, dom, PLAN, &Leaving, &[])
}
