//! A pool from the list of free pools.
ghost use Rattle.std.specs.Prelude.{◌≡◌, ◌+◌, ◌-◌, ◌<◌, ◌≤◌, IfOk, IfErr, OnOk, OnErr, [], ℕ};
ghost use Rattle.model_core.specs.Domains.{class_count, reserve as reserve_of};
ghost use Rattle.heap_rule.specs.declared.phase.Kind.TheVariants.{Run};
ghost use Rattle.heap_rule.specs.declared.phase.Stage.TheVariants.{In};
ghost use Rattle.heap_rule.specs.declared.view.Hunt.TheVariants.{Rests, Draws, Fills};
ghost use Rattle.heap_rule.specs.Limits.{sizes_in};
ghost use Rattle.heap_rule.specs.Pools.{Takes, blocks_of, limit_of};
ghost use Rattle.step_pools.specs.Takes.{HasNoDraw, NoneFree, CopyDrawMay, with_hunt, looked_to};
ghost use Rattle.heap_rule.specs.Token.{IsIn};
ghost use Rattle.do_alloc.specs.Pools.Taken.{Hunted, HasDrawn, DrewPool, KnowsNone, Reserved, Unreserved, Took};

use crate::pools::no_pool::NoPool;
use heap_rule::{Domain, Heap};
use step_pools::{
    class_blocks, clear_store, copy_draw, cursor_add, cursor_load, draw_limit, list_load,
    listed_load, owner_store, owner_word, place_address,
};

// The index of the first word of the list.
const LIST: u32 = 11;

// Draws the pool at the cursor, if running domains may. Answers the place and its pool.
fn draw_pool(heap: &Heap, dom: &mut Domain, class: u32) -> Result<u32, NoPool>
    requires here { IsIn dom.old heap.now }
    requires class { class < class_count }
    requires at_rest { HasNoDraw dom.old.view }
    requires none_free { NoneFree heap.now.config dom.old.view class }
    requires runs { dom.old.view.seen.stage ≡ In Run }
    ensures here { IsIn dom.new heap.now }
    ensures drew { IfOk result (λ place. DrewPool heap.now.config place class dom.old.view dom.new.view) }
    ensures none { IfErr result (λ n. Reserved heap.now.config n.free dom.old.view dom.new.view) }
    ensures known { KnowsNone class dom.old.view }
    ensures same { OnErr result (Hunted dom.old.view dom.new.view Rests) }
    ensures looked { OnErr result (dom.new.view.own.looked ≡ dom.old.view.own.looked) }
{
    let _limits = heap.config();
    let count = listed_load(heap, dom) as u32;
    let limit = draw_limit(heap, count);
    let none = NoPool {
        free: count - limit,
    };
    if cursor_load(heap, dom, count, class) >= u64::from(limit) {
        return Err(none);
    }
    let place = cursor_add(heap, dom, count, class);
    if place >= u64::from(limit) {
        return Err(none);
    }
    Ok(place as u32)
}

// Makes all places of the pool drawn free.
fn clear(heap: &Heap, dom: &mut Domain, pool: u32, class: u32)
    requires here { IsIn dom.old heap.now }
    requires class { class < class_count }
    requires inside { pool < heap.now.config.pools }
    requires drawn { (place : ℕ) × (dom.old.view.seen.hunt ≡ Draws place pool class 0) }
    requires takes { Takes dom.old.view.seen.stage }
    ensures here { IsIn dom.new heap.now }
    ensures cleared { (place : ℕ) → dom.old.view.seen.hunt ≡ Draws place pool class 0 → dom.new.view ≡ with_hunt dom.old.view (Draws place pool class (blocks_of class)) }
{
    let _limits = heap.config();
    for slot in 0..class_blocks(class) {
        clear_store(
            heap,
            dom,
            place_address(pool, class, slot),
            0,
            pool,
            class,
            slot,
        );
    }
}

// Makes the places of the pool drawn free, and it the domain's own. Its first place is taken. Answers
// the place's address.
fn sign(heap: &Heap, dom: &mut Domain, class: u32, place: u32) -> u32
    requires here { IsIn dom.old heap.now }
    requires class { class < class_count }
    requires drawn { HasDrawn heap.now.config place class dom.old.view }
    requires none_free { NoneFree heap.now.config dom.old.view class }
    requires takes { Takes dom.old.view.seen.stage }
    ensures here { IsIn dom.new heap.now }
    ensures took { Took heap.now.config class result dom.old.view dom.new.view }
    ensures free { dom.new.view.seen.free ≡ dom.old.view.seen.free }
{
    let pools = heap.config().pools;
    let pool = list_load(heap, dom, LIST + place) as u32;
    clear(heap, dom, pool, class);
    let new = owner_word(dom.number(), class);
    owner_store(heap, dom, LIST + pools + pool, new, pool, class);
    place_address(pool, class, 0)
}

// Draws a pool, if running domains may, and makes it the domain's own. Its first place is taken. Answers
// the place's address.
pub(crate) fn draw(heap: &Heap, dom: &mut Domain, class: u32) -> Result<u32, NoPool>
    requires here { IsIn dom.old heap.now }
    requires class { class < class_count }
    requires at_rest { HasNoDraw dom.old.view }
    requires none_free { NoneFree heap.now.config dom.old.view class }
    requires runs { dom.old.view.seen.stage ≡ In Run }
    ensures here { IsIn dom.new heap.now }
    ensures took { IfOk result (λ a. Took heap.now.config class a dom.old.view dom.new.view) }
    ensures unreserved { OnOk result (Unreserved heap.now.config dom.old.view dom.new.view) }
    ensures none { IfErr result (λ n. Reserved heap.now.config n.free dom.old.view dom.new.view) }
    ensures known { KnowsNone class dom.old.view }
    ensures same { OnErr result (Hunted dom.old.view dom.new.view Rests) }
    ensures looked { OnErr result (dom.new.view.own.looked ≡ dom.old.view.own.looked) }
{
    let place = draw_pool(heap, dom, class)?;
    Ok(sign(heap, dom, class, place))
}

// The same while young blocks are copied: a pool is always to be had.
pub(crate) fn draw_for_copy(heap: &Heap, dom: &mut Domain, class: u32) -> u32
    requires here { IsIn dom.old heap.now }
    requires may { CopyDrawMay heap.now.config dom.old.view class }
    ensures here { IsIn dom.new heap.now }
    ensures took { Took heap.now.config class result dom.old.view dom.new.view }
    ensures free { dom.new.view.seen.free ≡ dom.old.view.seen.free }
{
    let _limits = heap.config();
    let place = copy_draw(heap, dom, class) as u32;
    sign(heap, dom, class, place)
}
