//! Registrations by a running domain.
ghost use Rattle.std.specs.Prelude.{ℕ};
ghost use Rattle.heap_rule.specs.Token.{IsIn};
ghost use Rattle.step_finalisers.specs.Registering.{FinalMay, FinalTold, LastMay, LastTold};

use heap_rule::{Change, Domain, Heap, Own, Registered, RegisteredLast, WANT, Writing, raw_load};
use std::marker::Brand;

// A registration of `finalise` is added. The register is there for the pick alone.
#[derive(Clone, Copy)]
struct AddsFinal {
    item: u8,
    registered: Registered,
}

impl Writing for AddsFinal {
    ghost use Rattle.step_finalisers.specs.Registering.{CanAddFinal, Finals};

    ghost can = { λ s _ _ own. CanAddFinal own };

    ghost writes = { λ s _ _ own after. Finals s.registered own after };

    fn write(&self, _found: u64, _changes: &[Change], own: &mut Own) {
        own.finalisers.finals.push(self.registered);
    }
}

// And one of `finalise_last`.
#[derive(Clone, Copy)]
struct AddsLast {
    item: u8,
    registered: RegisteredLast,
}

impl Writing for AddsLast {
    ghost use Rattle.step_finalisers.specs.Registering.{CanAddLast, Lasts};

    ghost can = { λ s _ _ own. CanAddLast own };

    ghost writes = { λ s _ _ own after. Lasts s.registered own after };

    fn write(&self, _found: u64, _changes: &[Change], own: &mut Own) {
        own.finalisers.lasts.push(self.registered);
    }
}

/// A load of the want word, at which the entry of a `finalise` stands that names a register with a
/// block: `item` is the register, and `registered` what is registered for the block.
pub fn register_final(heap: &Heap, dom: &mut Domain, item: u8, registered: Registered)
    requires here { IsIn dom.old heap.now }
    requires may { FinalMay heap.now.config dom.old.view item registered }
    ensures here { IsIn dom.new heap.now }
    ensures told { FinalTold heap.now.config item registered dom.old.view dom.new.view }
{
    let writing = AddsFinal { item, registered };
    raw_load::<Brand, AddsFinal>(heap, dom, WANT, &writing, &[]);
}

/// A load of the want word, at which the entry of a `finalise_last` stands, likewise.
pub fn register_last(heap: &Heap, dom: &mut Domain, item: u8, registered: RegisteredLast)
    requires here { IsIn dom.old heap.now }
    requires may { LastMay heap.now.config dom.old.view item registered }
    ensures here { IsIn dom.new heap.now }
    ensures told { LastTold heap.now.config item registered dom.old.view dom.new.view }
{
    let writing = AddsLast { item, registered };
    raw_load::<Brand, AddsLast>(heap, dom, WANT, &writing, &[]);
}
