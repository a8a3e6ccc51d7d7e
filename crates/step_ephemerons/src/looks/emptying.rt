//! Looks at the ephemerons of the domain's own pools, in Clean, whose keys are to be emptied where they
//! aren't marked.
ghost use Rattle.heap_rule.specs.Standing.{IsInHeap};
ghost use Rattle.heap_rule.specs.Token.{IsIn};
ghost use Rattle.step_ephemerons.specs.Looks.Emptying.{CleanEndMay, CleanEndTold, CleanKeyMay, CleanKeyTold, CleanLabelMay, CleanLabelTold, CleanLookMay, CleanLookTold, CleanMay, CleanTold};

use crate::looks::looking::LookingAt;
use heap_rule::{Domain, Heap, Leaving, raw_load};
use std::marker::Brand;

/// A load of the head of a listed ephemeron, in Clean, by a domain that cleans none. Where it isn't
/// marked no key of it is emptied, and else its cleaning begins. `at` is its address. Answers the
/// head's word.
pub fn clean_load(heap: &Heap, dom: &mut Domain, at: u32) -> u64
    requires here { IsIn dom.old heap.now }
    requires inside { IsInHeap heap.now.config at }
    requires may { CleanMay dom.old.view at }
    ensures here { IsIn dom.new heap.now }
    ensures told { CleanTold heap.now.config at dom.old.view result dom.new.view }
{
    let index = heap.index_of(at);
    raw_load::<Brand, LookingAt>(heap, dom, index, &LookingAt { at }, &[])
}

/// A load of the next key of the ephemeron that the domain cleans. Where it refers to a block that
/// block's head is to be looked at next, and else the key is empty and done. `at` is the key's
/// address. Answers the value's word.
pub fn clean_key_load(heap: &Heap, dom: &mut Domain, at: u32) -> u64
    requires here { IsIn dom.old heap.now }
    requires inside { IsInHeap heap.now.config at }
    requires may { CleanKeyMay dom.old.view at }
    ensures here { IsIn dom.new heap.now }
    ensures told { CleanKeyTold heap.now.config dom.old.view result dom.new.view }
{
    let key_index = heap.index_of(at);
    raw_load::<Brand, Leaving>(heap, dom, key_index, &Leaving, &[])
}

/// A load of the head of the block to which the next key refers. Where the block is marked the key is
/// done, and else it is to be emptied. `at` is the block's address. Answers the head's word.
pub fn clean_key_look(heap: &Heap, dom: &mut Domain, at: u32) -> u64
    requires here { IsIn dom.old heap.now }
    requires inside { IsInHeap heap.now.config at }
    requires may { CleanLookMay dom.old.view at }
    ensures here { IsIn dom.new heap.now }
    ensures told { CleanLookTold dom.old.view result dom.new.view }
{
    let head_index = heap.index_of(at);
    raw_load::<Brand, LookingAt>(heap, dom, head_index, &LookingAt { at }, &[])
}

/// A load of the label of the ephemeron that the domain cleans. `at` is the label's address. Answers its
/// word.
pub fn clean_label_load(heap: &Heap, dom: &mut Domain, at: u32) -> u64
    requires here { IsIn dom.old heap.now }
    requires inside { IsInHeap heap.now.config at }
    requires may { CleanLabelMay dom.old.view at }
    ensures here { IsIn dom.new heap.now }
    ensures told { CleanLabelTold dom.old.view result dom.new.view }
{
    let label_index = heap.index_of(at);
    raw_load::<Brand, Leaving>(heap, dom, label_index, &Leaving, &[])
}

/// A load of the datum of the ephemeron that the domain cleans, where all its keys are done and none
/// was emptied: it is cleaned. `at` is the datum's address. Answers the value's word.
pub fn clean_end(heap: &Heap, dom: &mut Domain, at: u32) -> u64
    requires here { IsIn dom.old heap.now }
    requires inside { IsInHeap heap.now.config at }
    requires may { CleanEndMay dom.old.view at }
    ensures here { IsIn dom.new heap.now }
    ensures told { CleanEndTold dom.old.view result dom.new.view }
{
    let index = heap.index_of(at);
    raw_load::<Brand, Leaving>(heap, dom, index, &Leaving, &[])
}
