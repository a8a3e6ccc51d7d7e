//! The armed word, which says whether a cycle goes on beside running domains.
ghost use Rattle.std.specs.Prelude.{◌≡◌};
ghost use Rattle.heap_rule.specs.Cycles.{MayLook};
ghost use Rattle.heap_rule.specs.Token.{IsIn};
ghost use Rattle.step_marks.specs.Marking.Arming.{ArmMay, ArmedTold, knowing_armed};

use heap_rule::{Domain, Heap, Leaving, raw_load, raw_store};
use std::marker::Brand;

/// The index of the armed word.
const ARMED: usize = 4;

/// A load of the armed word, by a domain that acts in an even phase, or by domain 0 in an odd one.
/// Answers the word: outside a collection a cycle goes on beside running domains where it is 1.
pub fn armed_load(heap: &Heap, dom: &mut Domain) -> u64
    requires here { IsIn dom.old heap.now }
    requires acts { MayLook dom.old.view.own.number dom.old.view.seen.stage }
    ensures here { IsIn dom.new heap.now }
    ensures told { ArmedTold dom.old.view result dom.new.view }
{
    raw_load::<Brand, Leaving>(heap, dom, ARMED, &Leaving, &[])
}

/// Whether the armed word is set, by a load of this call. It stays so for as long as the domain
/// hasn't arrived.
pub fn armed_now(heap: &Heap, dom: &mut Domain) -> bool
    requires here { IsIn dom.old heap.now }
    requires acts { MayLook dom.old.view.own.number dom.old.view.seen.stage }
    ensures here { IsIn dom.new heap.now }
    ensures knows { dom.new.view ≡ knowing_armed dom.old.view result }
{
    armed_load(heap, dom) != 0
}

/// A store in the armed word, by domain 0 in an odd phase in which it hasn't named the next kind: `true`
/// once the roots have been darkened, where the cycle is to go on beside running domains, and `false`
/// once a collection is over.
pub fn armed_store(heap: &Heap, dom: &mut Domain, armed: bool)
    requires here { IsIn dom.old heap.now }
    requires may { ArmMay dom.old.view armed }
    ensures here { IsIn dom.new heap.now }
    ensures told { dom.new.view ≡ knowing_armed dom.old.view armed }
{
    raw_store::<Brand, Leaving>(heap, dom, ARMED, u64::from(armed), &Leaving, &[]);
}
