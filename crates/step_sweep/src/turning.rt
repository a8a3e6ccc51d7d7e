//! The rotation of the colours and the start of the count, by domain 0 once the marking has ended.
ghost use Rattle.heap_rule.specs.Token.{IsIn};
ghost use Rattle.step_sweep.specs.Turning.{BlocksCleared, ClearMay, TurnMay, TurnTold, WordsCleared};

use heap_rule::{COLOURS, Domain, Heap, LIVE_BLOCKS, LIVE_WORDS, Leaving, raw_store};
use std::marker::Brand;

/// A store of the colours word of the next collection: each block that wasn't marked is garbage from
/// here on, and each that was lives on as an unmarked one. `new` is the word.
pub fn colours_store(heap: &Heap, dom: &mut Domain, new: u64)
    requires here { IsIn dom.old heap.now }
    requires may { TurnMay dom.old.view new }
    ensures here { IsIn dom.new heap.now }
    ensures told { TurnTold dom.old.view new dom.new.view }
{
    raw_store::<Brand, Leaving>(heap, dom, COLOURS, new, &Leaving, &[]);
}

/// A store of 0 in the word of the live blocks.
pub fn blocks_clear(heap: &Heap, dom: &mut Domain)
    requires here { IsIn dom.old heap.now }
    requires may { ClearMay dom.old.view }
    ensures here { IsIn dom.new heap.now }
    ensures told { BlocksCleared dom.old.view 0 dom.new.view }
{
    raw_store::<Brand, Leaving>(heap, dom, LIVE_BLOCKS, 0, &Leaving, &[]);
}

/// A store of 0 in the word of the live words.
pub fn words_clear(heap: &Heap, dom: &mut Domain)
    requires here { IsIn dom.old heap.now }
    requires may { ClearMay dom.old.view }
    ensures here { IsIn dom.new heap.now }
    ensures told { WordsCleared dom.old.view 0 dom.new.view }
{
    raw_store::<Brand, Leaving>(heap, dom, LIVE_WORDS, 0, &Leaving, &[]);
}
