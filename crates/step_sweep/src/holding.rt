//! The walk, in Sweep and where a collection is answered, by which a domain finds that its pools hold
//! blocks.
ghost use Rattle.heap_rule.specs.Standing.{IsInHeap};
ghost use Rattle.heap_rule.specs.Token.{IsIn};
ghost use Rattle.step_sweep.specs.Holding.{HeldMay, HeldOwnMay, HeldOwnTold, HeldTold};

use crate::looking::Looking;
use heap_rule::{Domain, Heap, raw_load};
use std::marker::Brand;

/// A load of the owner of the next pool, in Answer, or in Sweep where all own pools are swept. Where it is the domain's own its class is known
/// then, and else the pool behind it is next. `at` is the index of the owner's word. Answers the word.
pub fn held_own_load(heap: &Heap, dom: &mut Domain, at: u32, pool: u32) -> u64
    requires here { IsIn dom.old heap.now }
    requires may { HeldOwnMay heap.now.config dom.old.view at pool }
    ensures here { IsIn dom.new heap.now }
    ensures told { HeldOwnTold pool dom.old.view result dom.new.view }
{
    let _limits = heap.config();
    let writing = Looking {
        at,
        pool,
        class: 0,
        slot: 0,
    };
    raw_load::<Brand, Looking>(heap, dom, at as usize, &writing, &[])
}

/// A load of the head at the next place of the next pool, in Answer, or in Sweep where all own pools are
/// swept. The pool is the domain's own. Where the head is Free the place behind it is next, and else the pool holds a block, and the
/// pool behind it is next. `at` is the place's address. Answers the head's word.
pub fn held_load(heap: &Heap, dom: &mut Domain, at: u32, pool: u32, class: u32, slot: u32) -> u64
    requires here { IsIn dom.old heap.now }
    requires inside { IsInHeap heap.now.config at }
    requires may { HeldMay heap.now.config dom.old.view at pool class slot }
    ensures here { IsIn dom.new heap.now }
    ensures told { HeldTold pool slot dom.old.view result dom.new.view }
{
    let index = heap.index_of(at);
    let writing = Looking {
        at,
        pool,
        class,
        slot,
    };
    raw_load::<Brand, Looking>(heap, dom, index, &writing, &[])
}
