//! The count of what lives in own pools.
ghost use Rattle.std.specs.Prelude.{◌≡◌, ◌+◌, ◌*◌, ◌<◌, ◌≤◌};
ghost use Rattle.model_core.specs.Domains.{class_count};
ghost use Rattle.heap_rule.specs.declared.phase.Kind.TheVariants.{Sweep};
ghost use Rattle.heap_rule.specs.declared.phase.Stage.TheVariants.{In};
ghost use Rattle.heap_rule.specs.Token.{IsIn};
ghost use Rattle.gc_sweep.specs.Counting.{CountedPlace, CountedPool, CountedAll, CountedLive, CountsIn, CountsAt, HasCountedNothing, IsCounting, IsLiveCount};

use crate::words::words_of;
use heap_rule::{Domain, Heap};
use step_pools::{class_blocks, place_address};
use step_sweep::{OWNERS, blocks_add, count_load, count_own_load, own_class, words_add};

// What has been counted so far.
#[derive(Clone, Copy)]
pub(crate) struct LiveCount {
    pub(crate) blocks: u64,
    pub(crate) words: u64,
}

// Counts what lives at the next place.
fn count_place(
    heap: &Heap,
    dom: &mut Domain,
    pool: u32,
    class: u32,
    slot: u32,
    count: LiveCount,
) -> LiveCount
    requires here { IsIn dom.old heap.now }
    requires inside { pool < heap.now.config.pools }
    requires class { class < class_count }
    requires counts { IsCounting heap.now.config dom.old.view }
    requires next { CountsAt dom.old.view pool class slot }
    requires count { IsLiveCount count (pool * 1024 + slot) dom.old.view }
    ensures here { IsIn dom.new heap.now }
    ensures counted { CountedPlace pool class slot dom.old.view dom.new.view }
    ensures count { IsLiveCount result (pool * 1024 + slot + 1) dom.new.view }
{
    let _limits = heap.config();
    let at = place_address(pool, class, slot);
    let word = count_load(heap, dom, at, pool, class, slot);
    if word == 0 {
        return count;
    }
    LiveCount {
        blocks: count.blocks + 1,
        words: count.words + words_of(word),
    }
}

// Counts what lives in the next pool, which is the domain's own.
fn count_places(heap: &Heap, dom: &mut Domain, pool: u32, class: u32, count: LiveCount) -> LiveCount
    requires here { IsIn dom.old heap.now }
    requires inside { pool < heap.now.config.pools }
    requires class { class < class_count }
    requires counts { IsCounting heap.now.config dom.old.view }
    requires next { CountsIn dom.old.view pool class }
    requires count { IsLiveCount count (pool * 1024) dom.old.view }
    ensures here { IsIn dom.new heap.now }
    ensures counted { CountedPool pool dom.old.view dom.new.view }
    ensures count { IsLiveCount result ((pool + 1) * 1024) dom.new.view }
{
    let mut sum = count;
    for slot in 0..class_blocks(class) {
        sum = count_place(heap, dom, pool, class, slot, sum);
    }
    sum
}

// Counts what lives in the next pool, if it is the domain's own.
fn count_pool(heap: &Heap, dom: &mut Domain, pool: u32, count: LiveCount) -> LiveCount
    requires here { IsIn dom.old heap.now }
    requires inside { pool < heap.now.config.pools }
    requires counts { IsCounting heap.now.config dom.old.view }
    requires next { dom.old.view.seen.share.counted_to ≡ record { pool = pool; slot = 0 } }
    requires count { IsLiveCount count (pool * 1024) dom.old.view }
    ensures here { IsIn dom.new heap.now }
    ensures counted { CountedPool pool dom.old.view dom.new.view }
    ensures count { IsLiveCount result ((pool + 1) * 1024) dom.new.view }
{
    let at = OWNERS + heap.config().pools + pool;
    let word = count_own_load(heap, dom, at, pool);
    let Some(class) = own_class(word, dom.number()) else {
        return count;
    };
    count_places(heap, dom, pool, class, count)
}

// Counts what lives in all own pools.
fn count_pools(heap: &Heap, dom: &mut Domain) -> LiveCount
    requires here { IsIn dom.old heap.now }
    requires counts { IsCounting heap.now.config dom.old.view }
    requires nothing { HasCountedNothing dom.old.view }
    ensures here { IsIn dom.new heap.now }
    ensures counted { CountedAll dom.old.view dom.new.view }
    ensures count { IsLiveCount result (heap.now.config.pools * 1024) dom.new.view }
{
    let _limits = heap.config();
    let top = dom.swept().top;
    let mut sum = LiveCount {
        blocks: 0,
        words: 0,
    };
    for pool in 0..top {
        sum = count_pool(heap, dom, pool, sum);
    }
    sum
}

/// Counts the blocks that live in the domain's own pools and their words, in Sweep, and adds each of
/// the two sums to the live blocks and the live words, once: as far as the count goes the domain may
/// arrive. The domain has swept its pools, and has counted nothing in this phase before.
///
/// The words of a block are those of its fields, its head and its label.
pub fn count_own(heap: &Heap, dom: &mut Domain)
    requires here { IsIn dom.old heap.now }
    requires stage { dom.old.view.seen.stage ≡ In Sweep }
    requires swept { heap.now.config.pools ≤ dom.old.view.own.swept.spot.pool }
    requires nothing { HasCountedNothing dom.old.view }
    ensures here { IsIn dom.new heap.now }
    ensures counted { CountedLive dom.old.view dom.new.view }
{
    let _limits = heap.config();
    let sum = count_pools(heap, dom);
    blocks_add(heap, dom, sum.blocks);
    words_add(heap, dom, sum.words);
}
