//! The marked blocks of all own pools.
ghost use Rattle.std.specs.Prelude.{◌≡◌, ◌≢◌, ◌<◌, ◌+◌, ℕ, MatchOption, []};
ghost use Rattle.model_core.specs.Domains.{class_count};
ghost use Rattle.heap_words.specs.ColourWords.{IsPermutation};
ghost use Rattle.heap_rule.specs.Pools.{owned, owner_word};
ghost use Rattle.heap_rule.specs.Token.{IsIn};
ghost use Rattle.gc_mark.specs.Decks.{NotesOn, TakesOwn};
ghost use Rattle.gc_mark.specs.Shares.{IsNotOf, IsOfClass, Marks, Noted, StartsWalk, Walked, AllWalked};

use crate::hints::Hints;
use crate::places::mark_pool;
use crate::trail::Trail;
use crate::waiting::Waiting;
use heap_rule::{Domain, Heap};
use heap_words::Colours;
use heap_words::classes::CLASS_COUNT;
use step_marks::marking::{changed_store, colours_now, own_load};
use step_pools::owner_word;

// The index of the owner word of the first pool, less the number of pools.
const OWNERS: u32 = 11;

// The class of a domain's pool whose owner's word this is. `None` where the pool isn't the domain's.
fn class_of(word: u64, domain: u32) -> Option<u32>
    ensures { MatchOption result (IsNotOf domain word) (IsOfClass domain word) }
{
    let first = owner_word(domain, 0);
    if word < first || word >= first + CLASS_COUNT as u64 {
        return None;
    }
    Some((word - first) as u32)
}

// Looks at the next pool of the walk, and if it is an own one scans its grey blocks.
fn visit_pool(
    heap: &Heap,
    dom: &mut Domain,
    pool: u32,
    colours: Colours,
    trail: &mut Trail,
    waiting: &mut Waiting,
)
    requires here { IsIn dom.old heap.now }
    requires marks { Marks colours dom.old.view }
    requires meanings { IsPermutation colours }
    requires pool { pool < heap.now.config.pools }
    requires next { dom.old.view.seen.share.walk ≡ record { pool = pool; slot = 0 } }
    requires none { trail.old.items ≡ [] }
    requires noted { Noted heap.now.config dom.old.view trail.old.items trail.old.lost }
    ensures here { IsIn dom.new heap.now }
    ensures walked { Walked (record { pool = pool + 1; slot = 0 }) dom.old.view dom.new.view }
    ensures noted { Noted heap.now.config dom.new.view trail.new.items trail.new.lost }
    ensures none { trail.new.items ≡ [] }
{
    let pools = heap.config().pools;
    let word = own_load(heap, dom, OWNERS + pools + pool, pool);
    if let Some(class) = class_of(word, dom.number()) {
        mark_pool(heap, dom, pool, class, colours, trail, waiting);
    }
}

// The same for all pools below the top, and then the store of the changed word, where a block may be left that
// the domain has marked and not followed.
fn walk_pools(heap: &Heap, dom: &mut Domain, trail: &mut Trail, waiting: &mut Waiting)
    requires here { IsIn dom.old heap.now }
    requires starts { StartsWalk dom.old.view }
    ensures here { IsIn dom.new heap.now }
    ensures walked { AllWalked dom.old.view dom.new.view }
{
    trail.start();
    waiting.start(0);
    let top = dom.swept().top;
    let colours = colours_now(heap, dom);
    for pool in 0..top {
        visit_pool(heap, dom, pool, colours, trail, waiting);
    }
    if trail.has_lost() {
        changed_store(heap, dom);
    }
}

/// A domain's share of a phase in which blocks are marked: it looks at each place of its own pools once,
/// in order, and scans each grey block that it finds there. What the block's fields refer to is marked,
/// whosever pool it lies in, and then the block's head says that it is scanned. Afterwards it has been at
/// each own place, and each block that it has marked is scanned, or it has stored the changed word, as is
/// asked of it where it arrives. What it knows of the colours and of blocks is all that has changed.
///
/// Its own hints are let go first, since the walk finds what they tell of. Behind each place the blocks
/// that the domain has marked itself are scanned at once, wherever they lie: it remembers as many as
/// 4096 of them. Where it has let one go it stores so in the changed word, since whoever has that block may
/// have passed its place: a later walk finds it.
///
/// Domains mark in parallel, and go on until a whole phase changes nothing ("Retrofitting Parallelism
/// onto OCaml", section 3.2).
pub fn mark_round(heap: &Heap, dom: &mut Domain, hints: &mut Hints)
    requires here { IsIn dom.old heap.now }
    requires starts { StartsWalk dom.old.view }
    ensures here { IsIn dom.new heap.now }
    ensures walked { AllWalked dom.old.view dom.new.view }
    ensures notes { NotesOn hints.old hints.new }
    ensures takes { TakesOwn hints.old hints.new }
{
    hints.clear();
    walk_pools(heap, dom, &mut hints.trail, &mut hints.waiting);
}
