//! The marked blocks of one own pool.
ghost use Rattle.std.specs.Prelude.{◌≡◌, ◌<◌, ◌+◌, Some, [], true, false};
ghost use Rattle.model_core.specs.Domains.{class_count};
ghost use Rattle.heap_words.specs.ColourWords.{IsPermutation};
ghost use Rattle.heap_rule.specs.Pools.{blocks_of};
ghost use Rattle.heap_rule.specs.Token.{IsIn};
ghost use Rattle.step_marks.specs.Marking.Marking.{Next, Site, behind};
ghost use Rattle.gc_mark.specs.Shares.{Marks, Noted, Walked};

use crate::following::follow_all;
use crate::scanning::scan_block;
use crate::trail::Trail;
use crate::waiting::Waiting;
use do_fields::darkening::scan_of;
use heap_rule::{Domain, Heap};
use heap_words::Colours;
use step_marks::marking::mark_load;
use step_pools::{class_blocks, place_address};

// Looks at the next place of the walk, in an own pool, and scans the block there if it is grey. Answers
// whether the domain has marked a block.
fn mark_place(
    heap: &Heap,
    dom: &mut Domain,
    pool: u32,
    class: u32,
    slot: u32,
    colours: Colours,
    trail: &mut Trail,
) -> bool
    ghost site: { Site }
    requires here { IsIn dom.old heap.now }
    requires marks { Marks colours dom.old.view }
    requires meanings { IsPermutation colours }
    requires pool { pool < heap.now.config.pools }
    requires class { class < class_count }
    requires slot { slot < blocks_of class }
    requires own { dom.old.view.seen.share.own_pool ≡ Some (record { pool = pool; class = class }) }
    requires next { dom.old.view.seen.share.walk ≡ record { pool = pool; slot = slot } }
    requires site { site ≡ Next pool class slot }
    requires noted { Noted heap.now.config dom.old.view trail.old.items trail.old.lost }
    ensures here { IsIn dom.new heap.now }
    ensures walked { Walked (behind pool class slot) dom.old.view dom.new.view }
    ensures owes { result ≡ true → dom.new.view.seen.share.owes ≡ true }
    ensures own { dom.new.view.seen.share.own_pool ≡ dom.old.view.seen.share.own_pool }
    ensures noted { Noted heap.now.config dom.new.view trail.new.items trail.new.lost }
    ensures kept { result ≡ false → trail.new.items ≡ trail.old.items }
{
    let _limits = heap.config();
    let at = place_address(pool, class, slot);
    let word = mark_load(heap, dom, at, pool, class, slot);
    let Some(block) = scan_of(word, colours) else {
        return false;
    };
    scan_block(heap, dom, at, block, colours, trail)
}

// The same at all places of the pool. What was darkened is followed after each.
pub(crate) fn mark_pool(
    heap: &Heap,
    dom: &mut Domain,
    pool: u32,
    class: u32,
    colours: Colours,
    trail: &mut Trail,
    waiting: &mut Waiting,
)
    requires here { IsIn dom.old heap.now }
    requires marks { Marks colours dom.old.view }
    requires meanings { IsPermutation colours }
    requires pool { pool < heap.now.config.pools }
    requires class { class < class_count }
    requires own { dom.old.view.seen.share.own_pool ≡ Some (record { pool = pool; class = class }) }
    requires next { dom.old.view.seen.share.walk ≡ record { pool = pool; slot = 0 } }
    requires none { trail.old.items ≡ [] }
    requires noted { Noted heap.now.config dom.old.view trail.old.items trail.old.lost }
    ensures here { IsIn dom.new heap.now }
    ensures walked { Walked (record { pool = pool + 1; slot = 0 }) dom.old.view dom.new.view }
    ensures noted { Noted heap.now.config dom.new.view trail.new.items trail.new.lost }
    ensures none { trail.new.items ≡ [] }
{
    for slot in 0..class_blocks(class) {
        if mark_place(heap, dom, pool, class, slot, colours, trail) {
            follow_all(heap, dom, colours, trail, waiting);
        }
    }
}
