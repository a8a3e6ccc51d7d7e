//! What domain 0 does with the changed word in odd phases.
ghost use Rattle.heap_rule.specs.Token.{IsIn};
ghost use Rattle.step_marks.specs.Marking.Changed.{FindMay, FindTold, ForgetMay, ForgetTold};

use heap_rule::{CHANGED, Domain, Heap, Leaving, raw_load, raw_store};
use std::marker::Brand;

/// A load of the changed word, by domain 0 before it names the next kind. Answers the word: where it
/// is 0 nothing was changed in the phase that has ended.
pub fn changed_load(heap: &Heap, dom: &mut Domain) -> u64
    requires here { IsIn dom.old heap.now }
    requires may { FindMay dom.old.view }
    ensures here { IsIn dom.new heap.now }
    ensures told { FindTold dom.old.view result dom.new.view }
{
    raw_load::<Brand, Leaving>(heap, dom, CHANGED, &Leaving, &[])
}

/// A store of 0 in the changed word, by domain 0 when it has named a phase in which blocks are
/// marked. Without it the phase after that one would be one of marking again.
pub fn changed_clear(heap: &Heap, dom: &mut Domain)
    requires here { IsIn dom.old heap.now }
    requires may { ForgetMay dom.old.view }
    ensures here { IsIn dom.new heap.now }
    ensures told { ForgetTold dom.old.view 0 dom.new.view }
{
    raw_store::<Brand, Leaving>(heap, dom, CHANGED, 0, &Leaving, &[]);
}
