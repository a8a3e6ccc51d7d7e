//! The tick: a load of the want word.
ghost use Rattle.std.specs.Prelude.{◌≡◌};
ghost use Rattle.model_core.specs.declared.entry.Entry.{Entry};
ghost use Rattle.heap_words.specs.declared.value.Value.TheVariants.{Nothing as NothingRead};
ghost use Rattle.heap_rule.specs.Standing.{Entered};
ghost use Rattle.step_run.specs.Fields.Ticks.{TickMay, tick_answer};
ghost use Rattle.heap_rule.specs.Token.{IsIn};

use heap_rule::{Change, Changing, Domain, Heap, Reading, raw_load};
use std::marker::Brand;

/// A load of the want word, at which an entry stands that the registers alone decide: a command on
/// registers, `poll`, `minor`, `major`, a load, a store or a command on an ephemeron that has no
/// block to look into or nothing to store, a registration of a finaliser that has no block to
/// register, or an allocation's `full` where the pools are used up. `at` is the word's index, 0.
/// Answers the word.
pub fn tick(heap: &Heap, dom: &mut Domain, at: u32, changes: &[Change]) -> u64
    ghost entry: { Entry }
    requires here { IsIn dom.old heap.now }
    requires want { at ≡ 0 }
    requires may { TickMay heap.now.config dom.old.view changes.now entry }
    ensures here { IsIn dom.new heap.now }
    ensures entered { Entered heap.now.config entry (tick_answer entry) NothingRead changes.now
        dom.old.view dom.new.view }
{
    let writing = Changing {
        at,
        reading: Reading::Unread,
    };
    raw_load::<Brand, Changing>(heap, dom, at as usize, &writing, changes)
}
