//! Looks at addresses that may be grey blocks', and the scan of those that are, while domains run.
ghost use Rattle.heap_rule.specs.Standing.{IsInHeap};
ghost use Rattle.heap_rule.specs.Token.{IsIn};
ghost use Rattle.step_marks.specs.Beside.Marking.{PlaceMay, PlaceTold, PoolMay, PoolTold, ReadMay, ReadTold, ScannedMay, ScannedTold, Source};

use crate::marking::Looking;
use heap_rule::{Domain, Heap, raw_load, raw_store};
use std::marker::Brand;

/// A load of the owner of a pool by a running domain, which wants to know whether a block begins at
/// the address `at` in it, which lies there, or behind all pools. `word` is the index of the owner's
/// word. Answers the word. Where nobody has the pool, or its blocks begin elsewhere, the look was in vain.
pub fn beside_owner_load(heap: &Heap, dom: &mut Domain, at: u32, word: u32, pool: u32) -> u64
    requires here { IsIn dom.old heap.now }
    requires may { PoolMay heap.now.config dom.old.view at word pool }
    ensures here { IsIn dom.new heap.now }
    ensures told { PoolTold at pool dom.old.view result dom.new.view }
{
    let _limits = heap.config();
    let writing = Looking {
        at,
        pool,
        class: 0,
        slot: 0,
    };
    raw_load::<Brand, Looking>(heap, dom, word as usize, &writing, &[])
}

/// A load of the head at a place of a pool that some domain has, by a running domain. Where a block
/// is grey there its scan may begin. `at` is the place's address. Answers the head's word.
pub fn beside_place_load(
    heap: &Heap,
    dom: &mut Domain,
    at: u32,
    pool: u32,
    class: u32,
    slot: u32,
) -> u64
    requires here { IsIn dom.old heap.now }
    requires inside { IsInHeap heap.now.config at }
    requires may { PlaceMay dom.old.view at pool class slot }
    ensures here { IsIn dom.new heap.now }
    ensures told { PlaceTold at dom.old.view result dom.new.view }
{
    let index = heap.index_of(at);
    let writing = Looking {
        at,
        pool,
        class,
        slot,
    };
    raw_load::<Brand, Looking>(heap, dom, index, &writing, &[])
}

/// A load of a field that no command reads: of the block into which the domain is about to store, or
/// of the block that it scans. Where it refers to a block of the pools that block is to be marked, as
/// the field may have referred to it when the roots had been darkened. `at` is the field's address,
/// `block` the block's and `field` the field's number. Answers the value's word.
pub fn beside_read(heap: &Heap, dom: &mut Domain, at: u32, block: u32, field: u32) -> u64
    ghost source: { Source }
    requires here { IsIn dom.old heap.now }
    requires inside { IsInHeap heap.now.config at }
    requires may { ReadMay heap.now.config dom.old.view at block field source }
    ensures here { IsIn dom.new heap.now }
    ensures told { ReadTold heap.now.config block field dom.old.view result dom.new.view }
{
    let index = heap.index_of(at);
    let writing = Looking {
        at,
        pool: block,
        class: field,
        slot: 0,
    };
    raw_load::<Brand, Looking>(heap, dom, index, &writing, &[])
}

/// A store of the head of a block that was found grey, where what its fields referred to when the
/// roots had been darkened is marked: by `new` the block is marked and scanned. Whoever scans it too
/// writes the same head. `at` is the block's address.
pub fn beside_scanned_store(heap: &Heap, dom: &mut Domain, at: u32, new: u64)
    requires here { IsIn dom.old heap.now }
    requires inside { IsInHeap heap.now.config at }
    requires may { ScannedMay heap.now.config dom.old.view at new }
    ensures here { IsIn dom.new heap.now }
    ensures told { ScannedTold at dom.old.view new dom.new.view }
{
    let index = heap.index_of(at);
    let writing = Looking {
        at,
        pool: 0,
        class: 0,
        slot: 0,
    };
    raw_store::<Brand, Looking>(heap, dom, index, new, &writing, &[]);
}
