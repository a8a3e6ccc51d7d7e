//! The count of what lives, by each domain in its own pools.
ghost use Rattle.heap_rule.specs.Standing.{IsInHeap};
ghost use Rattle.heap_rule.specs.Token.{IsIn};
ghost use Rattle.step_sweep.specs.Counting.{BlocksAddMay, BlocksAdded, CountMay, CountOwnMay, CountOwnTold, CountTold, WordsAddMay, WordsAdded};

use crate::looking::Looking;
use heap_rule::{Domain, Heap, LIVE_BLOCKS, LIVE_WORDS, Leaving, raw_add, raw_load};
use std::marker::Brand;

/// A load of the owner of the next pool through which the domain counts, in Sweep. Where it is the
/// domain's own its class is known then, and else the count goes on in the pool behind it. `at` is
/// the index of the owner's word. Answers the word.
pub fn count_own_load(heap: &Heap, dom: &mut Domain, at: u32, pool: u32) -> u64
    requires here { IsIn dom.old heap.now }
    requires may { CountOwnMay heap.now.config dom.old.view at pool }
    ensures here { IsIn dom.new heap.now }
    ensures told { CountOwnTold pool dom.old.view result dom.new.view }
{
    let _limits = heap.config();
    let writing = Looking {
        at,
        pool,
        class: 0,
        slot: 0,
    };
    raw_load::<Brand, Looking>(heap, dom, at as usize, &writing, &[])
}

/// A load of the head at the next own place at which the domain has found no garbage. A block that
/// lives there is counted. `at` is the place's address. Answers the head's word.
pub fn count_load(heap: &Heap, dom: &mut Domain, at: u32, pool: u32, class: u32, slot: u32) -> u64
    requires here { IsIn dom.old heap.now }
    requires inside { IsInHeap heap.now.config at }
    requires may { CountMay dom.old.view at pool class slot }
    ensures here { IsIn dom.new heap.now }
    ensures told { CountTold at pool class slot dom.old.view result dom.new.view }
{
    let index = heap.index_of(at);
    let writing = Looking {
        at,
        pool,
        class,
        slot,
    };
    raw_load::<Brand, Looking>(heap, dom, index, &writing, &[])
}

/// What the domain has counted in all its pools is added to the live blocks. `amount` is how many
/// blocks these are.
pub fn blocks_add(heap: &Heap, dom: &mut Domain, amount: u64)
    requires here { IsIn dom.old heap.now }
    requires may { BlocksAddMay dom.old.view amount }
    ensures here { IsIn dom.new heap.now }
    ensures told { BlocksAdded dom.old.view 0 dom.new.view }
{
    raw_add::<Brand, Leaving>(heap, dom, LIVE_BLOCKS, amount, &Leaving, &[]);
}

/// The words of these blocks are added to the live words. `amount` is how many they are.
pub fn words_add(heap: &Heap, dom: &mut Domain, amount: u64)
    requires here { IsIn dom.old heap.now }
    requires may { WordsAddMay dom.old.view amount }
    ensures here { IsIn dom.new heap.now }
    ensures told { WordsAdded dom.old.view 0 dom.new.view }
{
    raw_add::<Brand, Leaving>(heap, dom, LIVE_WORDS, amount, &Leaving, &[]);
}
