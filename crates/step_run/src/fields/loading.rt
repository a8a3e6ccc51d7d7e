//! Loads of the words of blocks by a running domain.
ghost use Rattle.std.specs.Prelude.{◌≡◌, ℕ, []};
ghost use Rattle.model_core.specs.declared.entry.Entry.{Entry};
ghost use Rattle.step_run.specs.Fields.Loads.{HeadMay, HeadTold, LabelMay, LabelTold, FieldLoadEntry, FieldRead};
ghost use Rattle.heap_rule.specs.Standing.{IsInHeap};
ghost use Rattle.heap_rule.specs.Token.{IsIn};

use heap_rule::{Change, Changing, Domain, Heap, Reading, raw_load};
use std::marker::Brand;

/// A load of the head of the block in the register that a `load` or a `store` looks into. The entry
/// stands here where its reply is `bounds`, or `type` since the block is no plain one. Else no entry
/// stands here, and the block's size is known. `at` is the block's address, and there are no changes.
/// Answers the head's word.
pub fn head_load(heap: &Heap, dom: &mut Domain, at: u32, changes: &[Change]) -> u64
    ghost entry: { Entry }
    requires here { IsIn dom.old heap.now }
    requires inside { IsInHeap heap.now.config at }
    requires may { HeadMay heap.now.config dom.old.view at entry }
    requires unchanged { changes.now ≡ [] }
    ensures here { IsIn dom.new heap.now }
    ensures told { HeadTold heap.now.config at entry dom.old.view result dom.new.view }
{
    let index = heap.index_of(at);
    let writing = Changing {
        at,
        reading: Reading::Unread,
    };
    raw_load::<Brand, Changing>(heap, dom, index, &writing, changes)
}

/// A load of the label of the block in a register. No entry stands here, and the front stays. `at` is
/// the address behind the block's, and there are no changes. Answers the label's word.
pub fn label_load(heap: &Heap, dom: &mut Domain, at: u32, changes: &[Change]) -> u64
    ghost register: { ℕ }
    requires here { IsIn dom.old heap.now }
    requires inside { IsInHeap heap.now.config at }
    requires may { LabelMay dom.old.view at register }
    requires unchanged { changes.now ≡ [] }
    ensures here { IsIn dom.new heap.now }
    ensures told { LabelTold heap.now.config register dom.old.view result dom.new.view }
{
    let index = heap.index_of(at);
    let writing = Changing {
        at,
        reading: Reading::Unread,
    };
    raw_load::<Brand, Changing>(heap, dom, index, &writing, changes)
}

/// A load of a field of the plain block in a register, whose size is known. The entry of the `load`
/// stands here. `at` is the field's address, and by the changes the register of the `load` gets the
/// value. Answers the value's word.
pub fn field_load(heap: &Heap, dom: &mut Domain, at: u32, changes: &[Change]) -> u64
    ghost entry: { Entry }
    requires here { IsIn dom.old heap.now }
    requires inside { IsInHeap heap.now.config at }
    requires may { FieldLoadEntry heap.now.config dom.old.view at changes.now entry }
    ensures here { IsIn dom.new heap.now }
    ensures told { FieldRead heap.now.config entry changes.now dom.old.view result dom.new.view }
{
    let index = heap.index_of(at);
    let reads = Changing {
        at,
        reading: Reading::AsValue,
    };
    raw_load::<Brand, Changing>(heap, dom, index, &reads, changes)
}
