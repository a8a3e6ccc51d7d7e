//! The walk through own pools in which garbage is freed.
ghost use Rattle.std.specs.Prelude.{◌≡◌, ◌<◌};
ghost use Rattle.heap_rule.specs.Standing.{IsInHeap};
ghost use Rattle.heap_rule.specs.Token.{IsIn};
ghost use Rattle.step_sweep.specs.Freeing.{AnewMay, AnewTold, FreeMay, FreeTold, SweepMay, SweepOwnMay, SweepOwnTold, SweepTold};

use crate::heads::has_colour;
use crate::owners::own_class;
use heap_rule::{COLOURS, Change, Domain, Heap, Own, Spot, Swept, Writing, raw_load, raw_store};
use std::marker::Brand;
use step_pools::{class_blocks, place_behind, pool_after};

// Everything is to be swept.
#[derive(Clone, Copy)]
struct Anew;

impl Writing for Anew {
    ghost use Rattle.step_sweep.specs.Freeing.{unswept};
    ghost use Rattle.std.specs.Prelude.{◌≡◌};

    ghost can = { λ _ _ _ _. Unit {0} };

    ghost writes = { λ _ _ _ own after. after ≡ unswept own };

    fn write(&self, _found: u64, _changes: &[Change], own: &mut Own) {
        own.swept = Swept {
            listed: 0,
            spot: Spot { pool: 0, slot: 0 },
            top: own.swept.top,
        };
    }
}

// A pool that isn't the domain's own, or whose places are all swept, is passed, and so are those behind it where no own pool
// is left.
#[derive(Clone, Copy)]
struct Entering {
    pools: u32,
    pool: u32,
}

impl Writing for Entering {
    ghost use Rattle.step_sweep.specs.Freeing.{CanSweepOwn, SweepsOwn};

    ghost can = { λ s _ _ own. CanSweepOwn s.pool own };

    ghost writes = { λ s found _ own after. SweepsOwn s.pools s.pool found own after };

    #[tactic(auto, using(crate::proofs::Entering::none_left))]
    fn write(&self, found: u64, _changes: &[Change], own: &mut Own) {
        let slot = own.swept.spot.slot;
        let next = Spot {
            pool: pool_after(self.pools, own.swept.top, self.pool),
            slot: 0,
        };
        match own_class(found, own.number) {
            None => own.swept.spot = next,
            Some(class) => {
                if class_blocks(class) <= slot {
                    own.swept.spot = next;
                }
            }
        }
    }
}

// A place at which no garbage lies is passed.
#[derive(Clone, Copy)]
struct Seeking {
    pool: u32,
    class: u32,
    slot: u32,
    garbage: u8,
}

impl Writing for Seeking {
    ghost use Rattle.step_sweep.specs.Freeing.{CanSweep, SweepsPlace};

    ghost can = { λ s _ _ own. CanSweep s.pool s.class s.slot own };

    ghost writes = { λ s found _ own after. SweepsPlace s.pool s.class s.slot s.garbage found own after };

    fn write(&self, found: u64, _changes: &[Change], own: &mut Own) {
        if !has_colour(found, self.garbage) {
            own.swept.spot = place_behind(self.pool, self.class, self.slot);
        }
    }
}

// A place is free for the search for one of its class.
#[derive(Clone, Copy)]
struct Freeing {
    pool: u32,
    class: u32,
    slot: u32,
}

impl Writing for Freeing {
    ghost use Rattle.step_sweep.specs.Freeing.{CanFree, FreesPlace};

    ghost can = { λ s _ _ own. CanFree s.pool s.class s.slot own };

    ghost writes = { λ s _ _ own after. FreesPlace s.pool s.class s.slot own after };

    fn write(&self, _found: u64, _changes: &[Change], own: &mut Own) {
        own.swept.spot = place_behind(self.pool, self.class, self.slot);
        let class = self.class as usize;
        own.looked[class] = own.looked[class].freed(self.pool, self.slot);
    }
}

/// A load of the meanings of the colours, in Lasts, at which the domain notes that it is to sweep all
/// its pools, and its list of ephemerons: the colours are rotated once all have arrived.
pub fn sweep_anew(heap: &Heap, dom: &mut Domain)
    requires here { IsIn dom.old heap.now }
    requires may { AnewMay dom.old.view }
    ensures here { IsIn dom.new heap.now }
    ensures told { AnewTold dom.old.view 0 dom.new.view }
{
    raw_load::<Brand, Anew>(heap, dom, COLOURS, &Anew, &[]);
}

/// A load of the owner of the next pool to be swept. Where the pool isn't the domain's own, or has no
/// place left, the sweep goes on in the next one, or behind the last one where no own pool is left. `at` is the index of the owner word. Answers it.
pub fn sweep_own_load(heap: &Heap, dom: &mut Domain, at: u32, pool: u32) -> u64
    requires here { IsIn dom.old heap.now }
    requires may { SweepOwnMay heap.now.config dom.old.view at pool }
    ensures here { IsIn dom.new heap.now }
    ensures told { SweepOwnTold heap.now.config pool dom.old.view result dom.new.view }
{
    let limits = heap.config();
    let writing = Entering {
        pools: limits.pools,
        pool,
    };
    raw_load::<Brand, Entering>(heap, dom, at as usize, &writing, &[])
}

/// A load of the head at the next place of an own pool. Where it hasn't the colour that means garbage,
/// which is `garbage`, the sweep goes on behind it. `at` is the place's address. Answers the head's
/// word.
pub fn sweep_load(
    heap: &Heap,
    dom: &mut Domain,
    at: u32,
    pool: u32,
    class: u32,
    slot: u32,
    garbage: u8,
) -> u64
    requires here { IsIn dom.old heap.now }
    requires inside { IsInHeap heap.now.config at }
    requires pool { pool < heap.now.config.pools }
    requires may { SweepMay dom.old.view at pool class slot garbage }
    ensures here { IsIn dom.new heap.now }
    ensures told { SweepTold pool class slot garbage dom.old.view result dom.new.view }
{
    let _limits = heap.config();
    let index = heap.index_of(at);
    let writing = Seeking {
        pool,
        class,
        slot,
        garbage,
    };
    raw_load::<Brand, Seeking>(heap, dom, index, &writing, &[])
}

/// A store of Free at the next place of an own pool, where the domain has found garbage. The sweep goes
/// on behind it, and the next search for a free place of its class begins no later. `at` is the
/// place's address.
pub fn free_store(heap: &Heap, dom: &mut Domain, at: u32, pool: u32, class: u32, slot: u32)
    requires here { IsIn dom.old heap.now }
    requires inside { IsInHeap heap.now.config at }
    requires pool { pool < heap.now.config.pools }
    requires may { FreeMay dom.old.view at pool class slot }
    ensures here { IsIn dom.new heap.now }
    ensures told { FreeTold pool class slot dom.old.view 0 dom.new.view }
{
    let _limits = heap.config();
    let index = heap.index_of(at);
    let writing = Freeing { pool, class, slot };
    raw_store::<Brand, Freeing>(heap, dom, index, 0, &writing, &[]);
}
