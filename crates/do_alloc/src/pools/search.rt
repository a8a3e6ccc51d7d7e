//! The search for a free place of the domain's own pools.
ghost use Rattle.model_core.specs.Domains.{class_count};
ghost use Rattle.std.specs.Prelude.{◌≡◌, ◌+◌, ◌<◌, MatchOption, OnSome};
ghost use Rattle.heap_rule.specs.declared.view.Hunt.TheVariants.{Walks};
ghost use Rattle.heap_rule.specs.Pools.{Takes, blocks_of, place_of, search_at};
ghost use Rattle.step_pools.specs.Takes.{HasNoDraw};
ghost use Rattle.heap_rule.specs.Token.{IsIn};
ghost use Rattle.do_alloc.specs.Pools.Taken.{FoundOwn, Took, WentOn, Lacks};

use heap_rule::{Domain, Heap, Search};
use step_pools::{class_blocks, owner_load, owner_word, place_address, place_load};

// The index of the owner word of the first pool, less the number of pools.
const OWNERS: u32 = 11;

// Looks at the places of an own pool from one on.
fn walk(heap: &Heap, dom: &mut Domain, class: u32, pool: u32, slot: u32) -> Option<u32>
    requires here { IsIn dom.old heap.now }
    requires class { class < class_count }
    requires inside { (pool < heap.now.config.pools) × (slot < blocks_of class) }
    requires walks { dom.old.view.seen.hunt ≡ Walks pool class }
    requires next { place_of (search_at dom.old.view.own.looked class) ≡ record { pool = pool; slot = slot } }
    requires takes { Takes dom.old.view.seen.stage }
    ensures here { IsIn dom.new heap.now }
    ensures found { MatchOption result (WentOn class pool dom.old.view dom.new.view) (λ a. Took heap.now.config class a dom.old.view dom.new.view) }
    ensures free { dom.new.view.seen.free ≡ dom.old.view.seen.free }
{
    let _limits = heap.config();
    for i in slot..class_blocks(class) {
        let at = place_address(pool, class, i);
        if place_load(heap, dom, at, pool, class, i) == 0 {
            return Some(at);
        }
    }
    None
}

// Looks at the places of a pool from one on, if it is the domain's own, for blocks of the class.
fn look_in(heap: &Heap, dom: &mut Domain, class: u32, pool: u32, slot: u32) -> Option<u32>
    requires here { IsIn dom.old heap.now }
    requires class { class < class_count }
    requires inside { (pool < heap.now.config.pools) × (slot < blocks_of class) }
    requires at_rest { HasNoDraw dom.old.view }
    requires next { place_of (search_at dom.old.view.own.looked class) ≡ record { pool = pool; slot = slot } }
    requires takes { Takes dom.old.view.seen.stage }
    ensures here { IsIn dom.new heap.now }
    ensures found { MatchOption result (WentOn class pool dom.old.view dom.new.view) (λ a. Took heap.now.config class a dom.old.view dom.new.view) }
    ensures free { dom.new.view.seen.free ≡ dom.old.view.seen.free }
{
    let at = OWNERS + heap.config().pools + pool;
    let own = owner_word(dom.number(), class);
    let found = owner_load(heap, dom, at, pool, class);
    if found != own {
        return None;
    }
    walk(heap, dom, class, pool, slot)
}

// Looks for a free place of the domain's own pools of the class.
pub(crate) fn find_free(heap: &Heap, dom: &mut Domain, class: u32) -> Option<u32>
    requires here { IsIn dom.old heap.now }
    requires class { class < class_count }
    requires at_rest { HasNoDraw dom.old.view }
    requires takes { Takes dom.old.view.seen.stage }
    ensures here { IsIn dom.new heap.now }
    ensures found { MatchOption result (Lacks heap.now.config class dom.old.view dom.new.view) (λ a. Took heap.now.config class a dom.old.view dom.new.view) }
    ensures own { OnSome result (FoundOwn heap.now.config class dom.old.view dom.new.view) }
    ensures free { dom.new.view.seen.free ≡ dom.old.view.seen.free }
{
    let pools = heap.config().pools;
    for _passed in 0..pools {
        let Search { pool, slot, .. } = dom.looked(class);
        if pool >= pools {
            return None;
        }
        if let Some(at) = look_in(heap, dom, class, pool, slot) {
            return Some(at);
        }
    }
    None
}
