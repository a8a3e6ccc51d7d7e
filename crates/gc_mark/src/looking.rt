//! Looks at addresses at which grey blocks may begin.
ghost use Rattle.std.specs.Prelude.{◌≡◌, ◌+◌, ◌*◌, ◌<◌, ◌≤◌, MatchOption};
ghost use Rattle.model_core.specs.Domains.{class_count};
ghost use Rattle.heap_words.specs.declared.colours.Colours.{Colours};
ghost use Rattle.heap_words.specs.ColourWords.{IsPermutation};
ghost use Rattle.heap_rule.specs.Pools.{blocks_of, place_in};
ghost use Rattle.heap_rule.specs.Token.{IsIn};
ghost use Rattle.step_marks.specs.Marking.Marking.{IsGrey};
ghost use Rattle.step_marks.specs.Beside.Marking.{Begins};
ghost use Rattle.gc_mark.specs.Slices.{BeginsHere, BeginsNowhere, IsOwner, LookedAtHint, Slices};

use crate::darkening::Hint;
use heap_rule::{Domain, Heap};
use heap_words::classes::POOL_WORDS;
use step_marks::beside::{beside_owner_load, beside_place_load};
use step_pools::{class_blocks, class_size};

// The index of the owner word of the first pool, less the number of pools.
const OWNERS: u32 = 11;

// The place of a pool whose blocks are of a class, at which the address is. `None` where it is at none.
fn slot_at(at: u32, pool: u32, class: u32) -> Option<u32>
    requires pool { pool < 2048 }
    requires class { class < class_count }
    ensures { MatchOption result (Begins at pool class → ⊥) (λ slot. (slot < blocks_of class) × (at ≡ place_in pool class slot)) }
{
    let first = pool * POOL_WORDS + 1;
    if at < first {
        return None;
    }
    let size = class_size(class);
    let slot = (at - first) / size;
    if (at - first) % size != 0 || slot >= class_blocks(class) {
        return None;
    }
    Some(slot)
}

// A class of blocks, and a place of a pool of such blocks.
#[derive(Clone, Copy)]
struct Here {
    class: u32,
    slot: u32,
}

// The class of a pool with this owner word, and the place of the pool at which the address is. `None`
// where no block begins there.
fn place_at(owner: u64, at: u32, pool: u32) -> Option<Here>
    requires pool { pool < 2048 }
    requires owner { IsOwner owner }
    ensures { MatchOption result (BeginsNowhere owner at pool) (λ here. BeginsHere owner at pool here.class here.slot) }
{
    if owner == 0 {
        return None;
    }
    let class = ((owner - 1) % 16) as u32;
    match slot_at(at, pool, class) {
        Some(slot) => Some(Here { class, slot }),
        None => None,
    }
}

// Looks at the address of a hint. Answers the head of the block there, 0 where none begins there.
pub(crate) fn look(heap: &Heap, dom: &mut Domain, hint: Hint) -> u64
    ghost colours: { Colours }
    requires here { IsIn dom.old heap.now }
    requires slices { Slices colours dom.old.view }
    requires meanings { IsPermutation colours }
    ensures here { IsIn dom.new heap.now }
    ensures looked { LookedAtHint colours hint dom.old.view result dom.new.view }
    ensures inside { IsGrey colours result → hint ≤ heap.now.config.pools * 4096 }
{
    let at = hint.address();
    let pools = heap.config().pools;
    let pool = pool_of(at, pools);
    let owner = beside_owner_load(heap, dom, at, OWNERS + pools + pool, pool);
    let Some(place) = place_at(owner, at, pool) else {
        return 0;
    };
    beside_place_load(heap, dom, at, pool, place.class, place.slot)
}

// The pool in which the address lies, the first where it lies behind all pools.
fn pool_of(at: u32, pools: u32) -> u32
    requires low { 1 ≤ at }
    requires some { (1 ≤ pools) × (pools ≤ 2048) }
    ensures below { result < pools }
    ensures inside { at ≤ pools * 4096 → (result * 4096 < at) × (at ≤ result * 4096 + 4096) }
    ensures behind { pools * 4096 < at → result ≡ 0 }
{
    if at <= pools * POOL_WORDS {
        (at - 1) / POOL_WORDS
    } else {
        0
    }
}
