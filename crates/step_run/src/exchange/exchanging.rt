//! The exchange of a field's word by a running domain.
ghost use Rattle.model_core.specs.declared.entry.Entry.{Entry};
ghost use Rattle.heap_rule.specs.Standing.{IsInHeap};
ghost use Rattle.heap_rule.specs.Token.{IsIn};
ghost use Rattle.step_run.specs.Exchange.Exchanges.{ExchangeEntry, ExchangeTold};

use heap_rule::{Change, Domain, Heap, Own, Writing, make_changes, raw_exchange};
use heap_words::Value;
use std::marker::Brand;

// What an exchange does besides: the changes are made, and where it has found the word that was
// expected the address of its word is remembered, where it is to be.
#[derive(Clone, Copy)]
struct Exchanging {
    at: u32,
    old: u64,
    remembers: bool,
}

impl Writing for Exchanging {
    ghost use Rattle.step_run.specs.Exchange.Exchanges.{CanExchange, Exchanges};

    ghost can = { λ s found changes own. CanExchange s.remembers changes own };

    ghost writes = { λ s found changes own after. Exchanges s.at s.old s.remembers found changes own after };

    fn write(&self, found: u64, changes: &[Change], own: &mut Own) {
        make_changes(own, Value::Nothing, changes);
        if self.remembers {
            if found == self.old {
                own.remembered.push(self.at);
            }
        }
    }
}

/// An exchange of a field of the plain or raw block in a register, whose size is known. The entry of
/// the `cas` stands here: it answers `yes` where the word `old` of what the register holds that the
/// `cas` expects is found, and else `no`, and nothing changes. `at` is the field's address, `new` the
/// word of what the register holds that the `cas` stores, and the changes leave the registers as they
/// are. Where it answers `yes` the field is remembered exactly where the block lies in a pool and that
/// register holds the address of a block in a minor area: `remembers` says so, and then there is room
/// for one more field. Either the domain has found that no cycle goes on beside, or it knows that the
/// block of the pools that is expected is marked. Answers the word found.
pub fn field_exchange(
    heap: &Heap,
    dom: &mut Domain,
    at: u32,
    old: u64,
    new: u64,
    remembers: bool,
    changes: &[Change],
) -> u64
    ghost entry: { Entry }
    requires here { IsIn dom.old heap.now }
    requires inside { IsInHeap heap.now.config at }
    requires may { ExchangeEntry heap.now.config dom.old.view at old new remembers changes.now entry }
    ensures here { IsIn dom.new heap.now }
    ensures told { ExchangeTold heap.now.config entry at old remembers changes.now dom.old.view result dom.new.view }
{
    let index = heap.index_of(at);
    let writing = Exchanging { at, old, remembers };
    raw_exchange::<Brand, Exchanging>(heap, dom, index, old, new, &writing, changes)
}
