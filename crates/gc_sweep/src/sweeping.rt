//! The walk through own pools in which garbage is freed.
ghost use Rattle.std.specs.Prelude.{◌≡◌, ◌<◌, ◌≤◌};
ghost use Rattle.model_core.specs.Domains.{class_count};
ghost use Rattle.heap_rule.specs.declared.phase.Kind.TheVariants.{Sweep};
ghost use Rattle.heap_rule.specs.declared.phase.Stage.TheVariants.{In};
ghost use Rattle.heap_rule.specs.declared.view.Hunt.TheVariants.{Rests};
ghost use Rattle.heap_rule.specs.Token.{IsIn};
ghost use Rattle.step_sweep.specs.Freeing.{Frees};
ghost use Rattle.gc_sweep.specs.Sweeping.{IsSweeping, Onward, Sweeps, SweepsAt, Swept, SweptAll, SweptPlace};

use crate::pruning::prune_list;
use heap_rule::{Domain, Heap};
use step_marks::marking::colours_now;
use step_pools::{class_blocks, place_address};
use step_sweep::{OWNERS, free_store, has_colour, own_class, sweep_load, sweep_own_load};

// Looks at the next place, and frees the garbage that lies there.
fn sweep_place(heap: &Heap, dom: &mut Domain, pool: u32, class: u32, slot: u32, garbage: u8)
    requires here { IsIn dom.old heap.now }
    requires inside { pool < heap.now.config.pools }
    requires sweeps { IsSweeping garbage dom.old.view }
    requires next { SweepsAt dom.old.view pool class slot }
    ensures here { IsIn dom.new heap.now }
    ensures swept { SweptPlace pool class slot dom.old.view dom.new.view }
{
    let _limits = heap.config();
    let at = place_address(pool, class, slot);
    let word = sweep_load(heap, dom, at, pool, class, slot, garbage);
    if has_colour(word, garbage) {
        free_store(heap, dom, at, pool, class, slot);
    }
}

// Sweeps at most so many places of an own pool, from the next one on. Answers how many.
fn sweep_places(heap: &Heap, dom: &mut Domain, pool: u32, class: u32, garbage: u8, most: u32) -> u32
    requires here { IsIn dom.old heap.now }
    requires inside { pool < heap.now.config.pools }
    requires sweeps { IsSweeping garbage dom.old.view }
    requires next { SweepsAt dom.old.view pool class dom.old.view.own.swept.spot.slot }
    requires some { 0 < most }
    ensures here { IsIn dom.new heap.now }
    ensures swept { Sweeps dom.old.view dom.new.view result }
    ensures few { result ≤ most }
    ensures some { 0 < result }
{
    let first = dom.swept().spot.slot;
    let left = class_blocks(class) - first;
    let count = left.min(most);
    for slot in first..first + count {
        sweep_place(heap, dom, pool, class, slot, garbage);
    }
    count
}

// Sweeps at most so many places of the next pool, if it is the domain's own. Answers how many.
fn sweep_pool(heap: &Heap, dom: &mut Domain, garbage: u8, most: u32) -> u32
    requires here { IsIn dom.old heap.now }
    requires inside { dom.old.view.own.swept.spot.pool < heap.now.config.pools }
    requires sweeps { IsSweeping garbage dom.old.view }
    requires some { 0 < most }
    ensures here { IsIn dom.new heap.now }
    ensures swept { Sweeps dom.old.view dom.new.view result }
    ensures few { result ≤ most }
    ensures onward { Onward dom.old.view dom.new.view result }
{
    let next = dom.swept().spot;
    let at = OWNERS + heap.config().pools + next.pool;
    let word = sweep_own_load(heap, dom, at, next.pool);
    match own_class(word, dom.number()) {
        Some(class) if next.slot < class_blocks(class) => {
            sweep_places(heap, dom, next.pool, class, garbage, most)
        }
        _ => 0,
    }
}

// Sweeps at most so many places. Answers how many.
fn sweep_pools(heap: &Heap, dom: &mut Domain, garbage: u8, most: u32) -> u32
    requires here { IsIn dom.old heap.now }
    requires sweeps { IsSweeping garbage dom.old.view }
    ensures here { IsIn dom.new heap.now }
    ensures swept { Sweeps dom.old.view dom.new.view result }
    ensures few { result ≤ most }
    ensures rest { result < most → heap.now.config.pools ≤ dom.new.view.own.swept.spot.pool }
{
    let pools = heap.config().pools;
    let mut count = 0;
    'sweeping: while count < most && dom.swept().spot.pool < pools {
        count += sweep_pool(heap, dom, garbage, most - count);
    }
    count
}

/// Looks at the next places of the domain's own pools, at most `most`, and frees the garbage that lies
/// there, in Sweep or as the domain runs. It takes no block of the pools meanwhile. Answers how many
/// places it has looked at: fewer than `most` only where no own pool is left to be swept. From one
/// rotation of the colours to the next it looks at each place at most once. No ephemeron is on the
/// domain's list then but those that live, if it had a place to look at: before any place is freed, what
/// is garbage is taken off the list.
///
/// Blocks of the colour that means garbage are freed, and no others ("Retrofitting Parallelism onto
/// OCaml", section 3.2).
pub fn sweep_slice(heap: &Heap, dom: &mut Domain, most: u32) -> u32
    requires here { IsIn dom.old heap.now }
    requires stage { Frees dom.old.view.seen.stage }
    requires at_rest { dom.old.view.seen.hunt ≡ Rests }
    ensures here { IsIn dom.new heap.now }
    ensures swept { Swept heap.now.config most result dom.old.view dom.new.view }
{
    if dom.swept().spot.pool >= heap.config().pools {
        return 0;
    }
    let garbage = colours_now(heap, dom).garbage;
    prune_list(heap, dom, garbage);
    sweep_pools(heap, dom, garbage, most)
}

/// Frees all garbage in the domain's own pools, in Sweep or as the domain runs. Afterwards no own pool is
/// left to be swept: it may count what lives there, and as far as sweeping goes it may arrive.
pub fn sweep_own(heap: &Heap, dom: &mut Domain)
    requires here { IsIn dom.old heap.now }
    requires stage { Frees dom.old.view.seen.stage }
    requires at_rest { dom.old.view.seen.hunt ≡ Rests }
    ensures here { IsIn dom.new heap.now }
    ensures swept { SweptAll heap.now.config dom.old.view dom.new.view }
{
    let _limits = heap.config();
    sweep_slice(heap, dom, u32::MAX);
}
