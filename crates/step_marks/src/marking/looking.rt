//! Loads of the colours, and what looks have in common.
ghost use Rattle.heap_rule.specs.Cycles.{MayLook};
ghost use Rattle.step_marks.specs.Marking.Looks.{ColoursTold};
ghost use Rattle.heap_rule.specs.Token.{IsIn};

use heap_rule::{COLOURS, Change, Domain, Heap, Leaving, Own, Writing, raw_load};
use std::marker::Brand;

/// The token's own data stays as it is. The address, and the place in a pool, are there for the pick
/// alone.
#[derive(Clone, Copy)]
pub struct Looking {
    pub at: u32,
    pub pool: u32,
    pub class: u32,
    pub slot: u32,
}

impl Writing for Looking {
    ghost use Rattle.heap_rule.specs.Raw.{CanLeave, Leaves};

    ghost can = { λ _ _ _ own. CanLeave own };

    ghost writes = { λ _ _ _ own after. Leaves own after };

    fn write(&self, _found: u64, _changes: &[Change], _own: &mut Own) {}
}

/// A load of the colours word, by a domain that acts in an even phase, or by domain 0 in an odd one.
/// Answers the word, which tells the meanings of the colours for as long as the domain hasn't arrived.
pub fn colours_load(heap: &Heap, dom: &mut Domain) -> u64
    requires here { IsIn dom.old heap.now }
    requires acts { MayLook dom.old.view.own.number dom.old.view.seen.stage }
    ensures here { IsIn dom.new heap.now }
    ensures told { ColoursTold heap.now.config dom.old.view result dom.new.view }
{
    raw_load::<Brand, Leaving>(heap, dom, COLOURS, &Leaving, &[])
}
