//! The walk through the domain's list of ephemerons.
ghost use Rattle.heap_rule.specs.Token.{IsIn};
ghost use Rattle.gc_sweep.specs.Pruning.{IsPruning, PrunedList};

use heap_rule::{Domain, Heap};
use step_sweep::prune_load;

// Takes what is garbage off the domain's list of ephemerons.
pub(crate) fn prune_list(heap: &Heap, dom: &mut Domain, garbage: u8)
    requires here { IsIn dom.old heap.now }
    requires prunes { IsPruning garbage dom.old.view }
    ensures here { IsIn dom.new heap.now }
    ensures pruned { PrunedList dom.old.view dom.new.view }
{
    let _limits = heap.config();
    'pruning: while dom.swept().listed < dom.ephemerons_len() {
        let next = dom.swept();
        let at = dom.ephemeron_at(next.listed);
        prune_load(heap, dom, at, next.listed, garbage);
    }
}
