//! The walk, in Sweep and where a collection is answered, in which a domain gives back its pools in
//! which nothing is left.
ghost use Rattle.std.specs.Prelude.{◌≡◌, ◌+◌, ◌<◌, ◌≤◌, true, false};
ghost use Rattle.model_core.specs.Domains.{class_count};
ghost use Rattle.heap_rule.specs.Token.{IsIn};
ghost use Rattle.step_sweep.specs.Holding.{Returns};
ghost use Rattle.gc_sweep.specs.Emptiness.{LooksFrom, LooksIn, FoundEmpty, sunk, with_looks, with_returns};

use heap_rule::{Domain, Heap};
use step_pools::{class_blocks, place_address};
use step_sweep::{OWNERS, held_load, held_own_load, list_void, own_class, pool_return, top_load};

// Whether a block lies in the next pool, which is the domain's own. Else each of its places is free.
fn holds_block(heap: &Heap, dom: &mut Domain, pool: u32, class: u32) -> bool
    requires here { IsIn dom.old heap.now }
    requires inside { pool < heap.now.config.pools }
    requires class { class < class_count }
    requires next { LooksIn heap.now.config dom.old.view pool class }
    ensures here { IsIn dom.new heap.now }
    ensures same { dom.new.view ≡ with_looks dom.old.view dom.new.view }
    ensures holds { result ≡ true → LooksFrom heap.now.config dom.new.view (pool + 1) }
    ensures none { result ≡ false → FoundEmpty heap.now.config dom.new.view pool class }
{
    let _limits = heap.config();
    for slot in 0..class_blocks(class) {
        let at = place_address(pool, class, slot);
        if held_load(heap, dom, at, pool, class, slot) != 0 {
            return true;
        }
    }
    false
}

// Gives the next pool back, if it is the domain's own and holds no block.
fn return_pool(heap: &Heap, dom: &mut Domain, pool: u32)
    requires here { IsIn dom.old heap.now }
    requires inside { pool < heap.now.config.pools }
    requires next { LooksFrom heap.now.config dom.old.view pool }
    ensures here { IsIn dom.new heap.now }
    ensures same { dom.new.view ≡ with_looks dom.old.view dom.new.view }
    ensures passed { LooksFrom heap.now.config dom.new.view (pool + 1) }
{
    let at = OWNERS + heap.config().pools + pool;
    let word = held_own_load(heap, dom, at, pool);
    let Some(class) = own_class(word, dom.number()) else {
        return;
    };
    if !holds_block(heap, dom, pool, class) {
        list_void(heap, dom);
        pool_return(heap, dom, at, pool, class);
    }
}

// The top sinks to behind the last pool below it that is the domain's own.
fn sink_top(heap: &Heap, dom: &mut Domain)
    requires here { IsIn dom.old heap.now }
    requires returns { Returns heap.now.config dom.old.view }
    ensures here { IsIn dom.new heap.now }
    ensures same { dom.new.view ≡ sunk dom.old.view dom.new.view }
    ensures sinks { dom.new.view.own.swept.top ≤ dom.old.view.own.swept.top }
{
    let owners = OWNERS + heap.config().pools;
    let top = dom.swept().top;
    for passed in 0..top {
        let pool = top - 1 - passed;
        let word = top_load(heap, dom, owners + pool, pool);
        match own_class(word, dom.number()) {
            None => (),
            Some(_) => return,
        }
    }
}

/// Gives back each of the domain's own pools that holds no block, in Sweep once it has swept them all,
/// or in Answer: it is nobody's afterwards. The domain has looked at none before. Then each of its pools
/// holds a block, as is asked of it where it arrives, and the top sinks to behind the last of them. Before
/// a pool comes back the list of free pools is emptied, so domain 0 writes it anew before the domains run.
pub fn return_pools(heap: &Heap, dom: &mut Domain)
    requires here { IsIn dom.old heap.now }
    requires returns { Returns heap.now.config dom.old.view }
    requires first { dom.old.view.seen.share.held ≡ 0 }
    requires none { dom.old.view.seen.share.vacant ≡ 0 }
    ensures here { IsIn dom.new heap.now }
    ensures same { dom.new.view ≡ with_returns dom.old.view dom.new.view }
    ensures sinks { dom.new.view.own.swept.top ≤ dom.old.view.own.swept.top }
    ensures done { dom.new.view.own.swept.top ≤ dom.new.view.seen.share.held }
{
    let _limits = heap.config();
    let top = dom.swept().top;
    for pool in 0..top {
        return_pool(heap, dom, pool);
    }
    sink_top(heap, dom);
}
