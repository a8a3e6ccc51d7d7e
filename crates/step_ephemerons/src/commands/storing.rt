//! Stores to the words of ephemerons by a running domain.
ghost use Rattle.model_core.specs.declared.entry.Entry.{Entry};
ghost use Rattle.heap_rule.specs.Standing.{IsInHeap};
ghost use Rattle.heap_rule.specs.Token.{IsIn};
ghost use Rattle.step_ephemerons.specs.Commands.Stores.{DataStoreEntry, KeyStoreEntry};
ghost use Rattle.step_run.specs.Fields.Stores.{StoreTold};

use heap_rule::{Change, Domain, Heap, raw_store};
use std::marker::Brand;
use step_run::fields::Storing;

/// A store to a key of the ephemeron in a register, whose number of keys is known. The entry of
/// `set_key` or `unset_key` stands here. `at` is the key's address, and the changes leave the
/// registers as they are. At `set_key` the register of the item holds a block, and `new` is the word
/// of its address: the key is remembered exactly where the ephemeron lies in a pool and the block in
/// a minor area. `remembers` says so, and then there is room for one more field. At `unset_key`
/// `new` is the word of nothing, and nothing is remembered.
pub fn key_store(
    heap: &Heap,
    dom: &mut Domain,
    at: u32,
    new: u64,
    remembers: bool,
    changes: &[Change],
)
    ghost entry: { Entry }
    requires here { IsIn dom.old heap.now }
    requires inside { IsInHeap heap.now.config at }
    requires may { KeyStoreEntry heap.now.config dom.old.view at new remembers changes.now entry }
    ensures here { IsIn dom.new heap.now }
    ensures told { StoreTold heap.now.config entry at remembers changes.now dom.old.view dom.new.view }
{
    let index = heap.index_of(at);
    let writing = Storing { at, remembers };
    raw_store::<Brand, Storing>(heap, dom, index, new, &writing, changes);
}

/// A store to the data of the ephemeron in a register. The entry of `set_data` or `unset_data`
/// stands here, and the rest is as for a key. At `set_data` the register of the item holds anything
/// but nothing, and `new` is its word.
pub fn data_store(
    heap: &Heap,
    dom: &mut Domain,
    at: u32,
    new: u64,
    remembers: bool,
    changes: &[Change],
)
    ghost entry: { Entry }
    requires here { IsIn dom.old heap.now }
    requires inside { IsInHeap heap.now.config at }
    requires may { DataStoreEntry heap.now.config dom.old.view at new remembers changes.now entry }
    ensures here { IsIn dom.new heap.now }
    ensures told { StoreTold heap.now.config entry at remembers changes.now dom.old.view dom.new.view }
{
    let index = heap.index_of(at);
    let stores = Storing { at, remembers };
    raw_store::<Brand, Storing>(heap, dom, index, new, &stores, changes);
}
