//! The steps at which blocks are marked while domains run.
ghost use Rattle.heap_rule.specs.Standing.{IsInHeap};
ghost use Rattle.heap_rule.specs.Token.{IsIn};
ghost use Rattle.step_marks.specs.Beside.Marking.{DarkenMay, DarkenTold, TargetMay, TargetTold, Reason};

use crate::marking::Looking;
use heap_rule::{Domain, Heap, raw_exchange, raw_load};
use std::marker::Brand;

/// A load of the head of a block of the pools that a running domain is to mark: a field may have
/// referred to it when the roots had been darkened, or a weak read has brought it into a register.
/// Where the block is marked already the domain owes its darkening no more. `at` is the block's
/// address. Answers the head's word.
pub fn beside_target_load(heap: &Heap, dom: &mut Domain, at: u32) -> u64
    ghost reason: { Reason }
    requires here { IsIn dom.old heap.now }
    requires inside { IsInHeap heap.now.config at }
    requires may { TargetMay heap.now.config dom.old.view at reason }
    ensures here { IsIn dom.new heap.now }
    ensures told { TargetTold at reason dom.old.view result dom.new.view }
{
    let index = heap.index_of(at);
    let writing = Looking {
        at,
        pool: 0,
        class: 0,
        slot: 0,
    };
    raw_load::<Brand, Looking>(heap, dom, index, &writing, &[])
}

/// The head `old` of an unmarked block, which the running domain found, is exchanged for `new`, by
/// which the block is marked and not scanned. The block is marked afterwards, also where another head
/// is found: then somebody else has marked it. `at` is the block's address. Answers the word found.
pub fn beside_darken(heap: &Heap, dom: &mut Domain, at: u32, old: u64, new: u64) -> u64
    ghost reason: { Reason }
    requires here { IsIn dom.old heap.now }
    requires inside { IsInHeap heap.now.config at }
    requires may { DarkenMay heap.now.config dom.old.view at old new reason }
    ensures here { IsIn dom.new heap.now }
    ensures told { DarkenTold old at reason dom.old.view result dom.new.view }
{
    let index = heap.index_of(at);
    let writing = Looking {
        at,
        pool: 0,
        class: 0,
        slot: 0,
    };
    raw_exchange::<Brand, Looking>(heap, dom, index, old, new, &writing, &[])
}
