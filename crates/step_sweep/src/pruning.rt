//! The walk through the listed ephemerons in which garbage is taken off the list.
ghost use Rattle.heap_rule.specs.Standing.{IsInHeap};
ghost use Rattle.heap_rule.specs.Token.{IsIn};
ghost use Rattle.step_sweep.specs.Pruning.{PruneMay, PruneTold};

use crate::heads::has_colour;
use heap_rule::{Change, Domain, Heap, Own, Writing, raw_load};
use std::marker::Brand;

// An ephemeron that is garbage is taken off the list, and another one is passed. Its address is there
// for the pick alone.
#[derive(Clone, Copy)]
struct Pruning {
    at: u32,
    i: usize,
    garbage: u8,
}

impl Writing for Pruning {
    ghost use Rattle.step_sweep.specs.Pruning.{CanPrune, Prunes};

    ghost can = { λ s _ _ own. CanPrune s.at s.i own };

    ghost writes = { λ s found _ own after. Prunes s.at s.i s.garbage found own after };

    fn write(&self, found: u64, _changes: &[Change], own: &mut Own) {
        let _listed = own.ephemerons.len();
        if has_colour(found, self.garbage) {
            own.ephemerons.swap_remove(self.i);
        } else {
            own.swept.listed = self.i + 1;
        }
    }
}

/// A load of the head of the `i`-th listed ephemeron, the next to be swept. Where the head has the colour that
/// means garbage, which is `garbage`, the ephemeron is taken off the list, and the last one takes its
/// place there. `at` is the ephemeron's address. Answers the head's word.
pub fn prune_load(heap: &Heap, dom: &mut Domain, at: u32, i: usize, garbage: u8) -> u64
    requires here { IsIn dom.old heap.now }
    requires inside { IsInHeap heap.now.config at }
    requires may { PruneMay dom.old.view at i garbage }
    ensures here { IsIn dom.new heap.now }
    ensures told { PruneTold at i garbage dom.old.view result dom.new.view }
{
    let index = heap.index_of(at);
    let writing = Pruning { at, i, garbage };
    raw_load::<Brand, Pruning>(heap, dom, index, &writing, &[])
}
