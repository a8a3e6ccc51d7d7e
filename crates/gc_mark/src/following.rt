//! The scan of blocks that the domain has darkened itself.
ghost use Rattle.std.specs.Prelude.{◌≡◌, ◌*◌, ◌≤◌, ◌++◌, ◌∷◌, IsTrue, [], true};
ghost use Rattle.heap_words.specs.ColourWords.{IsPermutation};
ghost use Rattle.heap_rule.specs.Cycles.{seen_by};
ghost use Rattle.heap_rule.specs.Token.{IsIn};
ghost use Rattle.gc_mark.specs.Shares.{Followed, MarkedItself, Noted, Scans};

use crate::hints::Hints;
use crate::scanning::scan_block;
use crate::trail::Trail;
use crate::waiting::Waiting;
use do_fields::darkening::scan_of;
use heap_rule::{Domain, Heap};
use heap_words::Colours;
use step_marks::marking::grey_load;

// Scans a block of a pool that is known to be marked, if it is grey: the one that was noted last, and is so
// no more. Answers whether the domain has marked a block.
fn follow(heap: &Heap, dom: &mut Domain, at: u32, colours: Colours, trail: &mut Trail) -> bool
    requires here { IsIn dom.old heap.now }
    requires scans { Scans colours dom.old.view }
    requires meanings { IsPermutation colours }
    requires inside { (1 ≤ at) × (at ≤ heap.now.config.pools * 4096) }
    requires marked { IsTrue (seen_by dom.old.view.seen.share.marked at) }
    requires noted { Noted heap.now.config dom.old.view (trail.old.items ++ at ∷ []) trail.old.lost }
    ensures here { IsIn dom.new heap.now }
    ensures followed { Followed result dom.old.view dom.new.view }
    ensures noted { Noted heap.now.config dom.new.view trail.new.items trail.new.lost }
{
    let word = grey_load(heap, dom, at);
    let Some(block) = scan_of(word, colours) else {
        return false;
    };
    scan_block(heap, dom, at, block, colours, trail)
}

// As many blocks as a pool has room for.
const POOL_BLOCKS: u32 = 1024;

// The same for all blocks that are noted, those too that are noted meanwhile, the last one first. Then
// none is noted. What waits for such a block is woken. The domain marks each block at most once, so it
// never comes to more than the pools have room for.
pub(crate) fn follow_all(
    heap: &Heap,
    dom: &mut Domain,
    colours: Colours,
    trail: &mut Trail,
    waiting: &mut Waiting,
) -> bool
    requires here { IsIn dom.old heap.now }
    requires scans { Scans colours dom.old.view }
    requires meanings { IsPermutation colours }
    requires owes { dom.old.view.seen.share.owes ≡ true }
    requires noted { Noted heap.now.config dom.old.view trail.old.items trail.old.lost }
    ensures here { IsIn dom.new heap.now }
    ensures followed { Followed result dom.old.view dom.new.view }
    ensures noted { Noted heap.now.config dom.new.view trail.new.items trail.new.lost }
    ensures none { trail.new.items ≡ [] }
{
    let mut darkened = false;
    for _ in 0..heap.config().pools * POOL_BLOCKS {
        let Some(at) = trail.pop() else {
            return darkened;
        };
        waiting.wake(at);
        darkened |= follow(heap, dom, at, colours, trail);
    }
    trail.clear();
    darkened
}

/// Scans a block of the pools that the domain has marked itself in a phase in which blocks are scanned,
/// and then what it marks so, wherever it lies, and wakes the ephemerons that wait for a block that it
/// marks so. The domain owes a store of the changed word already, since it has marked the block. What it
/// knows of blocks is all that changes. It remembers as many as 4096 blocks that are to be scanned: what
/// it can't remember a later walk finds.
pub fn scan_marked(heap: &Heap, dom: &mut Domain, at: u32, colours: Colours, hints: &mut Hints)
    requires here { IsIn dom.old heap.now }
    requires scans { Scans colours dom.old.view }
    requires meanings { IsPermutation colours }
    requires inside { (1 ≤ at) × (at ≤ heap.now.config.pools * 4096) }
    requires marked { MarkedItself dom.old.view at }
    ensures here { IsIn dom.new heap.now }
    ensures followed { Followed true dom.old.view dom.new.view }
    ensures hints { hints.new ≡ hints.old }
{
    hints.trail.clear();
    if follow(heap, dom, at, colours, &mut hints.trail) {
        follow_all(heap, dom, colours, &mut hints.trail, &mut hints.waiting);
    }
}
