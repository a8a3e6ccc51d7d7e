//! Looks at the places of the domain's own pools, and at blocks that are known to be marked.
ghost use Rattle.heap_rule.specs.Standing.{IsInHeap};
ghost use Rattle.heap_rule.specs.Token.{IsIn};
ghost use Rattle.step_marks.specs.Marking.Marking.{GreyMay, GreyTold, MarkMay, MarkTold, OwnMay, OwnTold};

use crate::marking::looking::Looking;
use heap_rule::{Domain, Heap, raw_load};
use std::marker::Brand;

/// A load of the owner of the next pool through which the domain walks, in a phase of a collection.
/// Where it is the domain's own its class is known then, and else the walk goes to the pool behind it.
/// `at` is the index of the owner's word. Answers the word.
pub fn own_load(heap: &Heap, dom: &mut Domain, at: u32, pool: u32) -> u64
    requires here { IsIn dom.old heap.now }
    requires may { OwnMay heap.now.config dom.old.view at pool }
    ensures here { IsIn dom.new heap.now }
    ensures told { OwnTold pool dom.old.view result dom.new.view }
{
    let _limits = heap.config();
    let writing = Looking {
        at,
        pool,
        class: 0,
        slot: 0,
    };
    raw_load::<Brand, Looking>(heap, dom, at as usize, &writing, &[])
}

/// A load of the head at the next place of an own pool, in Mark. Where no block is grey there the
/// walk goes to the place behind it, and else the scan of the block begins, after which the walk goes
/// on. `at` is the place's address. Answers the head's word.
pub fn mark_load(heap: &Heap, dom: &mut Domain, at: u32, pool: u32, class: u32, slot: u32) -> u64
    requires here { IsIn dom.old heap.now }
    requires inside { IsInHeap heap.now.config at }
    requires may { MarkMay dom.old.view at pool class slot }
    ensures here { IsIn dom.new heap.now }
    ensures told { MarkTold at pool class slot dom.old.view result dom.new.view }
{
    let index = heap.index_of(at);
    let writing = Looking {
        at,
        pool,
        class,
        slot,
    };
    raw_load::<Brand, Looking>(heap, dom, index, &writing, &[])
}

/// A load of the head of a block that the domain knows to be marked, in Mark or in Rounds, whosever pool
/// it lies in. Where it is grey its scan begins. `at` is the block's address. Answers the head's word.
pub fn grey_load(heap: &Heap, dom: &mut Domain, at: u32) -> u64
    requires here { IsIn dom.old heap.now }
    requires inside { IsInHeap heap.now.config at }
    requires may { GreyMay dom.old.view at }
    ensures here { IsIn dom.new heap.now }
    ensures told { GreyTold at dom.old.view result dom.new.view }
{
    let index = heap.index_of(at);
    let writing = Looking {
        at,
        pool: 0,
        class: 0,
        slot: 0,
    };
    raw_load::<Brand, Looking>(heap, dom, index, &writing, &[])
}
