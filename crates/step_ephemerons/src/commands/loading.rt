//! Loads of the words of ephemerons by a running domain.
ghost use Rattle.std.specs.Prelude.{◌≡◌, []};
ghost use Rattle.model_core.specs.declared.entry.Entry.{Entry};
ghost use Rattle.heap_rule.specs.Standing.{IsInHeap};
ghost use Rattle.heap_rule.specs.Token.{IsIn};
ghost use Rattle.step_ephemerons.specs.Commands.Heads.{EpheHeadMay, EpheHeadTold};
ghost use Rattle.step_ephemerons.specs.Commands.Loads.{WeakLoadEntry, WeakRead};

use heap_rule::{Change, Changing, Domain, Heap, Reading, raw_load};
use std::marker::Brand;

/// A load of the head of the block in the register that a command on ephemerons looks into. The
/// entry stands here where its reply is `type`, since the block is no ephemeron, or `bounds`. Else
/// no entry stands here, and the number of keys is known. A key that is to be set is a block, and
/// data that is to be set is something: else the registers alone decide the reply. `at` is the
/// block's address, and there are no changes. Answers the head's word.
pub fn ephe_head_load(heap: &Heap, dom: &mut Domain, at: u32, changes: &[Change]) -> u64
    ghost entry: { Entry }
    requires here { IsIn dom.old heap.now }
    requires inside { IsInHeap heap.now.config at }
    requires may { EpheHeadMay heap.now.config dom.old.view at entry }
    requires unchanged { changes.now ≡ [] }
    ensures here { IsIn dom.new heap.now }
    ensures told { EpheHeadTold heap.now.config at entry dom.old.view result dom.new.view }
{
    let index = heap.index_of(at);
    let writing = Changing {
        at,
        reading: Reading::Unread,
    };
    raw_load::<Brand, Changing>(heap, dom, index, &writing, changes)
}

/// A load of a key or of the data of the ephemeron in a register, whose number of keys is known. The
/// entry of `get_key`, `check_key`, `get_data` or `check_data` stands here. `at` is the word's
/// address, and by the changes the register of `get_key` or `get_data` gets what the word says. At
/// these two the domain has found whether a cycle goes on beside. If one does, and the register gets
/// a block of the pools, the domain owes the darkening of that block. Answers the word.
pub fn weak_load(heap: &Heap, dom: &mut Domain, at: u32, changes: &[Change]) -> u64
    ghost entry: { Entry }
    requires here { IsIn dom.old heap.now }
    requires inside { IsInHeap heap.now.config at }
    requires may { WeakLoadEntry heap.now.config dom.old.view at changes.now entry }
    ensures here { IsIn dom.new heap.now }
    ensures told { WeakRead heap.now.config entry changes.now dom.old.view result dom.new.view }
{
    let index = heap.index_of(at);
    let reads = Changing {
        at,
        reading: Reading::AsValue,
    };
    raw_load::<Brand, Changing>(heap, dom, index, &reads, changes)
}
