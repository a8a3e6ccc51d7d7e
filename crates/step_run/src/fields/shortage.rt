//! A look by a domain that is short of pools.
ghost use Rattle.std.specs.Prelude.{◌≡◌, []};
ghost use Rattle.heap_rule.specs.Token.{IsIn};
ghost use Rattle.step_run.specs.Fields.Shortage.{IsShort, ShortTold};

use heap_rule::{Change, Changing, Domain, Heap, Reading, raw_load};
use std::marker::Brand;

/// A load of the want word by a running domain that has found no more free pools than the reserve of
/// promotion. No entry stands here, and the front is the whole history so far. It tells how many
/// blocks must have been made by then: with the reserve, and one pool for each size class and domain,
/// they are at least as many as the pools. So in a history with few blocks no allocation is refused.
/// `at` is the word's index, 0, and there are no changes. Answers the word.
pub fn short_load(heap: &Heap, dom: &mut Domain, at: u32, changes: &[Change]) -> u64
    requires here { IsIn dom.old heap.now }
    requires want { at ≡ 0 }
    requires may { IsShort heap.now.config dom.old.view }
    requires unchanged { changes.now ≡ [] }
    ensures here { IsIn dom.new heap.now }
    ensures told { ShortTold heap.now.config dom.old.view result dom.new.view }
{
    let writing = Changing {
        at,
        reading: Reading::Unread,
    };
    raw_load::<Brand, Changing>(heap, dom, at as usize, &writing, changes)
}
