//! Looks at the ephemerons of the domain's own pools, in Rounds.
ghost use Rattle.heap_rule.specs.Standing.{IsInHeap};
ghost use Rattle.heap_rule.specs.Token.{IsIn};
ghost use Rattle.step_ephemerons.specs.Looks.Rounding.{DatumMay, DatumTold, EphemeronMay, EphemeronTold, KeyLookMay, KeyLookTold, KeyMay, KeyTold};

use crate::looks::looking::LookingAt;
use heap_rule::{Domain, Heap, Leaving, raw_load};
use std::marker::Brand;

/// A load of the head of a listed ephemeron, in Rounds. Where it isn't marked nothing is to be done
/// for it in this phase, and else the look at its keys begins. `at` is its address. Answers the head's
/// word.
pub fn ephemeron_load(heap: &Heap, dom: &mut Domain, at: u32) -> u64
    requires here { IsIn dom.old heap.now }
    requires inside { IsInHeap heap.now.config at }
    requires may { EphemeronMay dom.old.view at }
    ensures here { IsIn dom.new heap.now }
    ensures told { EphemeronTold heap.now.config at dom.old.view result dom.new.view }
{
    let index = heap.index_of(at);
    raw_load::<Brand, LookingAt>(heap, dom, index, &LookingAt { at }, &[])
}

/// A load of the next key of the ephemeron at which the domain looks, in Rounds. Where it refers to a
/// block that block's head is to be looked at next, and else the key is empty and done. `at` is the
/// key's address. Answers the value's word.
pub fn key_load(heap: &Heap, dom: &mut Domain, at: u32) -> u64
    requires here { IsIn dom.old heap.now }
    requires inside { IsInHeap heap.now.config at }
    requires may { KeyMay dom.old.view at }
    ensures here { IsIn dom.new heap.now }
    ensures told { KeyTold heap.now.config dom.old.view result dom.new.view }
{
    let index = heap.index_of(at);
    raw_load::<Brand, Leaving>(heap, dom, index, &Leaving, &[])
}

/// A load of the head of the block to which the next key refers, in Rounds. Where the block is marked
/// the key is done, and else nothing is to be done for the ephemeron in this phase. `at` is the block's
/// address. Answers the head's word.
pub fn key_look(heap: &Heap, dom: &mut Domain, at: u32) -> u64
    requires here { IsIn dom.old heap.now }
    requires inside { IsInHeap heap.now.config at }
    requires may { KeyLookMay dom.old.view at }
    ensures here { IsIn dom.new heap.now }
    ensures told { KeyLookTold dom.old.view result dom.new.view }
{
    let head_index = heap.index_of(at);
    raw_load::<Brand, LookingAt>(heap, dom, head_index, &LookingAt { at }, &[])
}

/// A load of the datum of the ephemeron at which the domain looks, in Rounds, where all its keys are
/// done. Where it refers to a block that block is to be marked next, and else the domain is done with
/// the ephemeron. `at` is the datum's address. Answers the value's word.
pub fn datum_load(heap: &Heap, dom: &mut Domain, at: u32) -> u64
    requires here { IsIn dom.old heap.now }
    requires inside { IsInHeap heap.now.config at }
    requires may { DatumMay dom.old.view at }
    ensures here { IsIn dom.new heap.now }
    ensures told { DatumTold heap.now.config dom.old.view result dom.new.view }
{
    let datum_index = heap.index_of(at);
    raw_load::<Brand, Leaving>(heap, dom, datum_index, &Leaving, &[])
}
