//! The answer to `full_major`, once a collection is complete.
ghost use Rattle.std.specs.Prelude.{◌≡◌};
ghost use Rattle.heap_rule.specs.declared.phase.Kind.TheVariants.{Answer};
ghost use Rattle.heap_rule.specs.declared.phase.Stage.TheVariants.{In};
ghost use Rattle.heap_rule.specs.Token.{IsIn};
ghost use Rattle.step_sweep.specs.Answering.{LiveBlocksTold, LiveWordsMay, LiveWordsTold};

use heap_rule::{Change, Domain, Heap, LIVE_BLOCKS, LIVE_WORDS, Leaving, Own, Writing, raw_load};
use std::marker::Brand;

// The token's own data stays as it is. The live blocks are there for the pick alone.
#[derive(Clone, Copy)]
struct Counted {
    blocks: u64,
}

impl Writing for Counted {
    ghost use Rattle.heap_rule.specs.Raw.{CanLeave, Leaves};

    ghost can = { λ _ _ _ own. CanLeave own };

    ghost writes = { λ _ _ _ own after. Leaves own after };

    fn write(&self, _found: u64, _changes: &[Change], _own: &mut Own) {}
}

/// A load of the word of the live blocks, in Answer. Answers the word, the number of blocks that the
/// collection has left. The domain sees the whole history so far at this load.
pub fn live_blocks_load(heap: &Heap, dom: &mut Domain) -> u64
    requires here { IsIn dom.old heap.now }
    requires stage { dom.old.view.seen.stage ≡ In Answer }
    ensures here { IsIn dom.new heap.now }
    ensures told { LiveBlocksTold heap.now.config dom.old.view result dom.new.view }
{
    raw_load::<Brand, Leaving>(heap, dom, LIVE_BLOCKS, &Leaving, &[])
}

/// A load of the word of the live words, in Answer, at which the domain's `full_major` stands. The
/// domain has run all finalisers that waited when it made its last command. `blocks` is the word of the
/// live blocks. The command's reply is this number and the answer, the word that is found. From then on
/// the domain owes the finalisers that its queue holds.
pub fn live_words_load(heap: &Heap, dom: &mut Domain, blocks: u64) -> u64
    requires here { IsIn dom.old heap.now }
    requires may { LiveWordsMay heap.now.config dom.old.view blocks }
    ensures here { IsIn dom.new heap.now }
    ensures told { LiveWordsTold heap.now.config blocks dom.old.view result dom.new.view }
{
    raw_load::<Brand, Counted>(heap, dom, LIVE_WORDS, &Counted { blocks }, &[])
}
