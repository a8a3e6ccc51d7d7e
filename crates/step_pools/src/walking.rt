//! Looks at the places of the domain's own pools.
ghost use Rattle.model_core.specs.Domains.{class_count};
ghost use Rattle.std.specs.Prelude.{◌≡◌, ◌≢◌, ◌+◌, ◌*◌, ◌<◌, ◌≤◌, true, false};
ghost use Rattle.heap_rule.specs.Pools.{Takes, size_of, blocks_of, place_in};
ghost use Rattle.heap_rule.specs.Standing.{IsInHeap};
ghost use Rattle.step_pools.specs.Takes.{OwnerLoadMay, OwnerTold, PlaceMay, PlaceTold};
ghost use Rattle.heap_rule.specs.Token.{IsIn};
ghost use Rattle.step_pools.specs.Writes.{pool_after, pool_behind};

use heap_rule::{Change, Domain, Heap, Own, Search, Spot, Writing, raw_load};
use heap_words::classes::POOL_WORDS;
use std::marker::Brand;

/// The owner word of a domain's pool of a class.
pub fn owner_word(domain: u32, class: u32) -> u64
    ensures { result ≡ 16 * domain + class + 1 }
{
    16 * u64::from(domain) + u64::from(class) + 1
}

/// The words of a block of a class. Walks through pools ask for it at each place, so it is no look into the
/// table of classes.
pub fn class_size(class: u32) -> u32
    requires { class < class_count }
    ensures value { result ≡ size_of class }
    ensures some { (4 ≤ result) × (result ≤ 4096) }
{
    4 << class
}

/// The blocks of a pool of a class. It is no division, for walks through pools ask for it at each place.
pub fn class_blocks(class: u32) -> u32
    requires { class < class_count }
    ensures value { result ≡ blocks_of class }
    ensures few { (0 < result) × (result ≤ 1024) }
{
    1024 >> class
}

/// The address of a place of a pool.
pub fn place_address(pool: u32, class: u32, slot: u32) -> u32
    requires pool { pool < 2048 }
    requires class { class < class_count }
    requires slot { slot < blocks_of class }
    ensures value { result ≡ place_in pool class slot }
    ensures inside { (pool * 4096 < result) × (result ≤ pool * 4096 + 4096) }
{
    pool * POOL_WORDS + slot * class_size(class) + 1
}

/// The place behind one, in the next pool behind the last.
pub fn place_behind(pool: u32, class: u32, slot: u32) -> Spot
    requires pool { pool < 2048 }
    requires class { class < class_count }
    requires slot { slot < blocks_of class }
    ensures next { slot + 1 < blocks_of class → result ≡ record { pool = pool; slot = slot + 1 } }
    ensures last { blocks_of class ≤ slot + 1 → result ≡ record { pool = pool + 1; slot = 0 } }
{
    if slot + 1 < class_blocks(class) {
        Spot {
            pool,
            slot: slot + 1,
        }
    } else {
        Spot {
            pool: pool + 1,
            slot: 0,
        }
    }
}

/// Where a walk over own pools, which lie below `top`, goes on behind a pool: in the next one, or behind the last one of
/// the heap's `pools`, where no own pool is left.
pub fn pool_after(pools: u32, top: u32, pool: u32) -> u32
    requires inside { pool < 2048 }
    ensures { result ≡ pool_after pools top pool }
{
    if pool + 1 < top { pool + 1 } else { pools }
}

// How far a domain has looked once no place of a pool is free from a place on that it has passed.
fn pool_behind(pools: u32, top: u32, pool: u32, looked: Search) -> Search
    requires inside { pool < 2048 }
    ensures { result ≡ pool_behind pools top pool looked }
{
    let next = if looked.only {
        pools
    } else {
        pool_after(pools, top, pool)
    };
    Search {
        pool: next,
        slot: 0,
        only: looked.only,
    }
}

// The pool is passed where its owner word isn't the domain's, and so are those behind it where no own pool is left, or none
// that has a free place.
#[derive(Clone, Copy)]
struct PassingPool {
    pools: u32,
    pool: u32,
    class: u32,
}

impl Writing for PassingPool {
    ghost use Rattle.step_pools.specs.Writes.{CanLook, PassesPool};

    ghost can = { λ s _ _ _. CanLook s.pool s.class };

    ghost writes = { λ s found _ own after. PassesPool s.pools s.pool s.class found own after };

    fn write(&self, found: u64, _changes: &[Change], own: &mut Own) {
        if found != owner_word(own.number, self.class) {
            let looked = own.looked[self.class as usize];
            own.looked[self.class as usize] = pool_behind(
                self.pools,
                own.swept.top,
                self.pool,
                looked,
            );
        }
    }
}

// The place is passed where its head isn't Free, and behind the last one of its pool so are the pools in which none is free.
#[derive(Clone, Copy)]
struct PassingPlace {
    pools: u32,
    pool: u32,
    class: u32,
    slot: u32,
}

impl PassingPlace {
    // How far the domain has looked once it has passed the place.
    fn passed(self, top: u32, looked: Search) -> Search
        requires pool { self.pool < 2048 }
        requires class { self.class < class_count }
        requires slot { self.slot < blocks_of self.class }
        ensures next { self.slot + 1 < blocks_of self.class → result ≡ record { pool = self.pool; slot = self.slot + 1; only = looked.only } }
        ensures last { blocks_of self.class ≤ self.slot + 1 → result ≡ pool_behind self.pools top self.pool looked }
    {
        if self.slot + 1 < class_blocks(self.class) {
            Search {
                pool: self.pool,
                slot: self.slot + 1,
                only: looked.only,
            }
        } else {
            pool_behind(self.pools, top, self.pool, looked)
        }
    }
}

impl Writing for PassingPlace {
    ghost use Rattle.std.specs.Prelude.{◌<◌};
    ghost use Rattle.heap_rule.specs.Pools.{blocks_of};
    ghost use Rattle.step_pools.specs.Writes.{CanLook, PassesPlace};

    ghost can = { λ s _ _ _. CanLook s.pool s.class × (s.slot < blocks_of s.class) };

    ghost writes = { λ s found _ own after. PassesPlace s.pools s.pool s.class s.slot found own after };

    fn write(&self, found: u64, _changes: &[Change], own: &mut Own) {
        if found != 0 {
            let looked = own.looked[self.class as usize];
            own.looked[self.class as usize] = self.passed(own.swept.top, looked);
        }
    }
}

/// A load of the owner of the pool in which the places of the class are looked at next. Where it isn't the domain's, for
/// blocks of the class, it is passed, and so are the pools behind it where no own pool is left. Answers the word.
pub fn owner_load(heap: &Heap, dom: &mut Domain, at: u32, pool: u32, class: u32) -> u64
    requires here { IsIn dom.old heap.now }
    requires may { OwnerLoadMay heap.now.config dom.old.view at pool class }
    requires takes { Takes dom.old.view.seen.stage }
    ensures here { IsIn dom.new heap.now }
    ensures told { OwnerTold heap.now.config pool class dom.old.view result dom.new.view }
{
    let limits = heap.config();
    let passing = PassingPool {
        pools: limits.pools,
        pool,
        class,
    };
    raw_load::<Brand, PassingPool>(heap, dom, at as usize, &passing, &[])
}

/// A load of the head at the next place of an own pool. Where it isn't Free the place is passed, and behind the last one of
/// the pool all pools in which none is free. Answers the head's word.
pub fn place_load(heap: &Heap, dom: &mut Domain, at: u32, pool: u32, class: u32, slot: u32) -> u64
    requires here { IsIn dom.old heap.now }
    requires inside { IsInHeap heap.now.config at }
    requires few { (class < class_count) × (slot < 1024) × (pool < heap.now.config.pools) }
    requires may { PlaceMay dom.old.view at pool class slot }
    requires takes { Takes dom.old.view.seen.stage }
    ensures here { IsIn dom.new heap.now }
    ensures told { PlaceTold heap.now.config pool class slot dom.old.view result dom.new.view }
{
    let pools = heap.config().pools;
    let index = heap.index_of(at);
    let passing = PassingPlace {
        pools,
        pool,
        class,
        slot,
    };
    raw_load::<Brand, PassingPlace>(heap, dom, index, &passing, &[])
}
