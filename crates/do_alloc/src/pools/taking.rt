//! A free block of the pools.
ghost use Rattle.model_core.specs.Domains.{class_count};
ghost use Rattle.std.specs.Prelude.{◌≡◌, ◌<◌, ◌≤◌, ◌⊎◌, IfOk, IfErr, OnOk, OnErr, None};
ghost use Rattle.heap_rule.specs.Pools.{prepared_at};
ghost use Rattle.heap_rule.specs.declared.phase.Kind.TheVariants.{Run, Promote};
ghost use Rattle.heap_rule.specs.declared.phase.Stage.TheVariants.{In};
ghost use Rattle.heap_rule.specs.declared.view.Hunt.TheVariants.{Rests};
ghost use Rattle.step_pools.specs.Takes.{HasNoDraw, HasYoung, NoneFree};
ghost use Rattle.heap_rule.specs.Token.{IsIn};
ghost use Rattle.do_alloc.specs.Pools.Taken.{FoundNone, FoundOwn, HasPlace, Hunted, KnowsNone, Reserved, Taken, Took, TookUnseen, Unreserved};

use crate::pools::draw::{draw, draw_for_copy};
use crate::pools::no_pool::NoPool;
use crate::pools::search::find_free;
use gc_sweep::sweep_own;
use heap_rule::{Domain, Heap};

// Takes a free place of the domain's own pools of the class, and where none is free one of a new pool, if
// running domains may draw one. Answers its address.
fn find_or_draw(heap: &Heap, dom: &mut Domain, class: u32) -> Result<u32, NoPool>
    requires here { IsIn dom.old heap.now }
    requires class { class < class_count }
    requires at_rest { HasNoDraw dom.old.view }
    requires runs { dom.old.view.seen.stage ≡ In Run }
    ensures here { IsIn dom.new heap.now }
    ensures took { IfOk result (λ a. Took heap.now.config class a dom.old.view dom.new.view) }
    ensures has_place { OnOk result (FoundOwn heap.now.config class dom.old.view dom.new.view ⊎ (KnowsNone class dom.old.view × Unreserved heap.now.config dom.old.view dom.new.view)) }
    ensures reserved { IfErr result (λ n. Reserved heap.now.config n.free dom.old.view dom.new.view) }
    ensures none_free { OnErr result (NoneFree heap.now.config dom.new.view class) }
    ensures known { OnErr result (KnowsNone class dom.old.view) }
    ensures same { OnErr result (Hunted dom.old.view dom.new.view Rests) }
{
    if let Some(at) = find_free(heap, dom, class) {
        return Ok(at);
    }
    draw(heap, dom, class)
}

/// Takes a free block of a size class from the domain's own pools, and where none is free from a new
/// pool. Before it answers `NoPool` it sweeps what is left of its own pools, and tries both once more
/// ("Retrofitting Parallelism onto OCaml", section 3.2). Answers the block's address. What is known
/// besides stays as it was, but for what a sweep changes.
///
/// `NoPool` exactly where no own pool of the class has a free block, no own pool is left to be swept,
/// and the number of pools that were free at the last look of this call is at most the reserve of
/// promotion. So it doesn't come where a place of the class is known to be free, as one is to domain 0
/// when the heap starts. There it isn't looked how many pools are free, and nothing is swept: it is
/// looked only where no own pool of the class has a free block, and swept only where a look of this call
/// found no more pools free than the reserve.
pub fn take(heap: &Heap, dom: &mut Domain, class: u32) -> Result<u32, NoPool>
    requires here { IsIn dom.old heap.now }
    requires class { class < class_count }
    requires at_rest { HasNoDraw dom.old.view }
    requires runs { dom.old.view.seen.stage ≡ In Run }
    ensures here { IsIn dom.new heap.now }
    ensures took { IfOk result (λ a. Taken heap.now.config class a dom.old.view dom.new.view) }
    ensures has_place { OnOk result (HasPlace heap.now.config class dom.old.view dom.new.view) }
    ensures none { IfErr result (λ n. FoundNone heap.now.config class n.free dom.old.view dom.new.view) }
{
    match find_or_draw(heap, dom, class) {
        Err(_) if dom.swept().spot.pool < heap.config().pools => {
            sweep_own(heap, dom);
            find_or_draw(heap, dom, class)
        }
        answer => answer,
    }
}

/// Takes a free block of a size class for a copy of a young block: from the domain's own pools, and
/// where none is free from a new pool, of which one is always to be had. The domain has met a block
/// of a minor area, and no place is prepared for the class. Answers the block's address. What is known
/// besides stays as it was.
pub fn take_for_copy(heap: &Heap, dom: &mut Domain, class: u32) -> u32
    requires here { IsIn dom.old heap.now }
    requires class { class < class_count }
    requires at_rest { HasNoDraw dom.old.view }
    requires copies { dom.old.view.seen.stage ≡ In Promote }
    requires unprepared { prepared_at dom.old.view.own.prepared class ≡ None }
    requires met { HasYoung heap.now.config dom.old.view }
    ensures here { IsIn dom.new heap.now }
    ensures took { TookUnseen heap.now.config class result dom.old.view dom.new.view }
{
    match find_free(heap, dom, class) {
        Some(at) => at,
        None => draw_for_copy(heap, dom, class),
    }
}
