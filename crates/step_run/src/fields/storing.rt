//! Stores to the fields of blocks by a running domain.
ghost use Rattle.model_core.specs.declared.entry.Entry.{Entry};
ghost use Rattle.heap_rule.specs.Standing.{IsInHeap};
ghost use Rattle.step_run.specs.Fields.Stores.{FieldStoreEntry, StoreTold};
ghost use Rattle.heap_rule.specs.Token.{IsIn};

use heap_rule::{Change, Domain, Heap, Own, Writing, make_changes, raw_store};
use heap_words::Value;
use std::marker::Brand;

/// What a store does besides: the changes are made, and the address of its word is remembered where
/// it is to be.
#[derive(Clone, Copy)]
pub struct Storing {
    pub at: u32,
    pub remembers: bool,
}

impl Writing for Storing {
    ghost use Rattle.step_run.specs.Fields.Stores.{CanStore, Stores};

    ghost can = { λ s found changes own. CanStore s.remembers changes own };

    ghost writes = { λ s found changes own after. Stores s.at s.remembers changes own after };

    fn write(&self, _found: u64, changes: &[Change], own: &mut Own) {
        make_changes(own, Value::Nothing, changes);
        if self.remembers {
            own.remembered.push(self.at);
        }
    }
}

/// A store to a field of the plain block in a register, whose size is known. The entry of the
/// `store` stands here. `at` is the field's address, `new` the word of what the register holds that
/// the `store` names, and the changes leave the registers as they are. The field is remembered
/// exactly where the block lies in a pool and the register holds the address of a block in a minor
/// area: `remembers` says so, and then there is room for one more field. Either the domain has found
/// that no cycle goes on beside, or it knows that what the field referred to when the roots had been
/// darkened is marked.
pub fn field_store(
    heap: &Heap,
    dom: &mut Domain,
    at: u32,
    new: u64,
    remembers: bool,
    changes: &[Change],
)
    ghost entry: { Entry }
    requires here { IsIn dom.old heap.now }
    requires inside { IsInHeap heap.now.config at }
    requires may { FieldStoreEntry heap.now.config dom.old.view at new remembers changes.now entry }
    ensures here { IsIn dom.new heap.now }
    ensures told { StoreTold heap.now.config entry at remembers changes.now dom.old.view dom.new.view }
{
    let index = heap.index_of(at);
    let writing = Storing { at, remembers };
    raw_store::<Brand, Storing>(heap, dom, index, new, &writing, changes);
}
