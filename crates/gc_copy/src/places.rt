//! Size classes, and places of pools.
ghost use Rattle.std.specs.Prelude.{◌≡◌, ◌<◌, ◌≤◌, ℕ};
ghost use Rattle.model_core.specs.Domains.{class_count};
ghost use Rattle.heap_words.specs.Classes.Table.{IsLeastFor};
ghost use Rattle.heap_words.specs.declared.classes.TheConstants.{SIZES};
ghost use Rattle.heap_rule.specs.Places.{HasClass};
ghost use Rattle.heap_rule.specs.Pools.{blocks_of, place_in};

use heap_rule::Spot;
use heap_words::classes::{POOL_WORDS, heap_classes};

// The size class of a block of so many words.
pub(crate) fn class_for(words: u32) -> u32
    requires { HasClass words }
    ensures class { result < class_count }
    ensures least { IsLeastFor SIZES words result }
{
    let Some(class) = heap_classes().class_of(words as usize) else {
        unreachable!()
    };
    class as u32
}

// The pool and the slot of a place of a class.
pub(crate) fn spot_in(at: u32, class: u32) -> Spot
    requires class { class < class_count }
    requires place { 1 ≤ at }
    ensures { (pool slot : ℕ) → slot < blocks_of class → at ≡ place_in pool class slot → result ≡ record { pool = pool; slot = slot } }
{
    let size = heap_classes().words_of(class as usize) as u32;
    Spot {
        pool: (at - 1) / POOL_WORDS,
        slot: (at - 1) % POOL_WORDS / size,
    }
}
