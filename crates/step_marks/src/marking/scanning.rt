//! The scan of a marked block, and the changed word.
ghost use Rattle.heap_rule.specs.Standing.{IsInHeap};
ghost use Rattle.heap_rule.specs.Token.{IsIn};
ghost use Rattle.step_marks.specs.Marking.Marking.{ChangedMay, ChangedTold, ScanMay, ScanTold, ScannedMay, ScannedTold, Site};

use crate::marking::looking::Looking;
use heap_rule::{CHANGED, Domain, Heap, Leaving, raw_load, raw_store};
use std::marker::Brand;

/// A load of the next field of the block that the domain scans, in Mark or in Rounds. Where it refers to a
/// block that block is to be marked next, and else the field is done. `at` is the field's address.
/// Answers the value's word.
pub fn scan_load(heap: &Heap, dom: &mut Domain, at: u32) -> u64
    requires here { IsIn dom.old heap.now }
    requires inside { IsInHeap heap.now.config at }
    requires may { ScanMay dom.old.view at }
    ensures here { IsIn dom.new heap.now }
    ensures told { ScanTold heap.now.config dom.old.view result dom.new.view }
{
    let index = heap.index_of(at);
    raw_load::<Brand, Leaving>(heap, dom, index, &Leaving, &[])
}

/// A store of the head of the block that the domain scans, in Mark or in Rounds, where all its fields are
/// done: by `new` the block is marked and scanned. Whoever scans it too writes the same head. Where the
/// block lies at the next place of the walk, which there is in Mark alone, the domain has seen the place
/// then, and the walk goes on. `at` is the block's address.
pub fn scanned_store(heap: &Heap, dom: &mut Domain, at: u32, new: u64)
    ghost site: { Site }
    requires here { IsIn dom.old heap.now }
    requires inside { IsInHeap heap.now.config at }
    requires may { ScannedMay dom.old.view at new site }
    ensures here { IsIn dom.new heap.now }
    ensures told { ScannedTold at site dom.old.view new dom.new.view }
{
    let index = heap.index_of(at);
    let writing = Looking {
        at,
        pool: 0,
        class: 0,
        slot: 0,
    };
    raw_store::<Brand, Looking>(heap, dom, index, new, &writing, &[]);
}

/// A store of 1 in the changed word, in Mark, Rounds or Queued: the domain owes it no more.
pub fn changed_store(heap: &Heap, dom: &mut Domain)
    requires here { IsIn dom.old heap.now }
    requires may { ChangedMay dom.old.view }
    ensures here { IsIn dom.new heap.now }
    ensures told { ChangedTold dom.old.view 1 dom.new.view }
{
    raw_store::<Brand, Leaving>(heap, dom, CHANGED, 1, &Leaving, &[]);
}
