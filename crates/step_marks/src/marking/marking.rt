//! The steps at which blocks are marked.
ghost use Rattle.heap_rule.specs.Standing.{IsInHeap};
ghost use Rattle.heap_rule.specs.Token.{IsIn};
ghost use Rattle.step_marks.specs.Marking.Marking.{DarkenMay, DarkenTold, TargetMay, TargetTold, Reason};

use crate::marking::looking::Looking;
use heap_rule::{Domain, Heap, raw_exchange, raw_load};
use std::marker::Brand;

/// A load of the head of a block that a register refers to, or the next field of the block that the
/// domain scans, or the datum of an ephemeron whose full keys are marked, or that a place of the
/// domain's queue of finalisers keeps alive. Where the block is marked the domain is done with the
/// register, with the field, with the ephemeron or with the place. `at` is the block's address.
/// Answers the head's word.
pub fn target_load(heap: &Heap, dom: &mut Domain, at: u32) -> u64
    ghost reason: { Reason }
    requires here { IsIn dom.old heap.now }
    requires inside { IsInHeap heap.now.config at }
    requires may { TargetMay dom.old.view at reason }
    ensures here { IsIn dom.new heap.now }
    ensures told { TargetTold at reason dom.old.view result dom.new.view }
{
    let index = heap.index_of(at);
    let writing = Looking {
        at,
        pool: 0,
        class: 0,
        slot: 0,
    };
    raw_load::<Brand, Looking>(heap, dom, index, &writing, &[])
}

/// The head `old` of an unmarked block, which the domain found last, is exchanged for `new`, by which
/// the block is marked and not scanned. The block is marked afterwards, also where another head is
/// found: then somebody else has marked it. `at` is the block's address. Answers the word found.
pub fn darken_exchange(heap: &Heap, dom: &mut Domain, at: u32, old: u64, new: u64) -> u64
    ghost reason: { Reason }
    requires here { IsIn dom.old heap.now }
    requires inside { IsInHeap heap.now.config at }
    requires may { DarkenMay dom.old.view at old new reason }
    ensures here { IsIn dom.new heap.now }
    ensures told { DarkenTold heap.now.config old at reason dom.old.view result dom.new.view }
{
    let index = heap.index_of(at);
    let writing = Looking {
        at,
        pool: 0,
        class: 0,
        slot: 0,
    };
    raw_exchange::<Brand, Looking>(heap, dom, index, old, new, &writing, &[])
}
