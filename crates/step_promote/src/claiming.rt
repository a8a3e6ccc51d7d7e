//! The race for young blocks: a place is prepared for a copy, and one exchange claims the block.
ghost use Rattle.std.specs.Prelude.{◌≡◌, ◌≤◌, ◌↔◌, IsTrue};
ghost use Rattle.heap_rule.specs.Standing.{IsInHeap};
ghost use Rattle.heap_rule.specs.Token.{IsIn};
ghost use Rattle.step_promote.specs.Claims.{ClaimMay, ClaimTold, FreeMay, FreedTold, HeadStoreMay, HeadStoreTold, LabelStoreMay, LabelStoreTold, PrepareMay, PrepareTold};

use heap_rule::{Change, Copied, Domain, Heap, Leaving, Own, Writing, raw_exchange, raw_store};
use std::marker::Brand;

// A place is prepared for a class.
#[derive(Clone, Copy)]
struct Preparing {
    at: u32,
    class: u32,
}

impl Writing for Preparing {
    ghost use Rattle.step_promote.specs.Writes.{CanPrepare, Prepares};

    ghost can = { λ s _ _ _. CanPrepare s.class };

    ghost writes = { λ s _ _ own after. Prepares s.class s.at own after };

    fn write(&self, _found: u64, _changes: &[Change], own: &mut Own) {
        own.prepared[self.class as usize] = Some(self.at);
    }
}

// The token's own data stays as it is. The class, or the address, is there for the pick alone.
#[derive(Clone, Copy)]
struct Labelling {
    class: u32,
}

impl Writing for Labelling {
    ghost use Rattle.heap_rule.specs.Raw.{CanLeave, Leaves};

    ghost can = { λ _ _ _ own. CanLeave own };

    ghost writes = { λ _ _ _ own after. Leaves own after };

    fn write(&self, _found: u64, _changes: &[Change], _own: &mut Own) {}
}

// Where the claim is won, the prepared place is a copy in the list.
#[derive(Clone, Copy)]
struct Claiming {
    copy: u32,
    source: u32,
    class: u32,
    old: u64,
}

impl Writing for Claiming {
    ghost use Rattle.step_promote.specs.Writes.{CanClaim, Claims};

    ghost can = { λ s found _ own. CanClaim s.class s.old found own };

    ghost writes = { λ s found _ own after. Claims s.class s.copy s.source s.old found own after };

    fn write(&self, found: u64, _changes: &[Change], own: &mut Own) {
        if found == self.old {
            own.pending.push(Copied {
                copy: self.copy,
                source: self.source,
            });
            own.prepared[self.class as usize] = None;
        }
    }
}

// A prepared place is given back.
#[derive(Clone, Copy)]
struct Freeing {
    pool: u32,
    class: u32,
    slot: u32,
}

impl Writing for Freeing {
    ghost use Rattle.step_promote.specs.Writes.{CanPrepare, Frees};

    ghost can = { λ s _ _ _. CanPrepare s.class };

    ghost writes = { λ s _ _ own after. Frees s.pool s.class s.slot own after };

    fn write(&self, _found: u64, _changes: &[Change], own: &mut Own) {
        let class = self.class as usize;
        own.prepared[class] = None;
        own.looked[class] = own.looked[class].freed(self.pool, self.slot);
    }
}

/// The free place that the domain took is prepared for a copy: a store of a word that isn't Free to
/// its head, which is at `at`.
pub fn prepare_store(
    heap: &Heap,
    dom: &mut Domain,
    at: u32,
    new: u64,
    pool: u32,
    class: u32,
    slot: u32,
)
    requires here { IsIn dom.old heap.now }
    requires inside { IsInHeap heap.now.config at }
    requires may { PrepareMay dom.old.view at new pool class slot }
    ensures here { IsIn dom.new heap.now }
    ensures told { PrepareTold at class dom.old.view new dom.new.view }
{
    let index = heap.index_of(at);
    raw_store::<Brand, Preparing>(heap, dom, index, new, &Preparing { at, class }, &[]);
}

/// A store of a label to the place that is prepared for a class. `at` is the label's address.
pub fn prepare_label(heap: &Heap, dom: &mut Domain, at: u32, new: u64, class: u32)
    requires here { IsIn dom.old heap.now }
    requires inside { IsInHeap heap.now.config at }
    requires may { LabelStoreMay dom.old.view at class }
    ensures here { IsIn dom.new heap.now }
    ensures told { LabelStoreTold class dom.old.view new dom.new.view }
{
    let index = heap.index_of(at);
    raw_store::<Brand, Labelling>(heap, dom, index, new, &Labelling { class }, &[]);
}

/// A store of a head to the prepared place that has just got its label. `at` is the place's address.
pub fn prepare_head(heap: &Heap, dom: &mut Domain, at: u32, new: u64)
    requires here { IsIn dom.old heap.now }
    requires inside { IsInHeap heap.now.config at }
    requires may { HeadStoreMay dom.old.view at new }
    ensures here { IsIn dom.new heap.now }
    ensures told { HeadStoreTold at dom.old.view new dom.new.view }
{
    let index = heap.index_of(at);
    raw_store::<Brand, Labelling>(heap, dom, index, new, &Labelling { class: at }, &[]);
}

/// The claim of a young block, which is at `at`: an exchange of its head `old` by one that forwards to
/// the prepared place `copy`. Answers the head that it found, and whether the claim was won.
pub fn claim_exchange(
    heap: &Heap,
    dom: &mut Domain,
    at: u32,
    old: u64,
    new: u64,
    class: u32,
    copy: u32,
) -> (u64, bool)
    requires here { IsIn dom.old heap.now }
    requires inside { IsInHeap heap.now.config at }
    requires may { ClaimMay heap.now.config dom.old.view at old new class copy }
    ensures here { IsIn dom.new heap.now }
    ensures told { ClaimTold heap.now.config at old class copy dom.old.view result.0 dom.new.view }
    ensures won { IsTrue result.1 ↔ (result.0 ≡ old) }
{
    let index = heap.index_of(at);
    let claiming = Claiming {
        copy,
        source: at,
        class,
        old,
    };
    let found = raw_exchange::<Brand, Claiming>(heap, dom, index, old, new, &claiming, &[]);
    (found, found == old)
}

/// A prepared place is given back: a store of Free to its head, which is at `at`.
pub fn free_store(heap: &Heap, dom: &mut Domain, at: u32, pool: u32, class: u32, slot: u32)
    requires here { IsIn dom.old heap.now }
    requires inside { IsInHeap heap.now.config at }
    requires pool { pool ≤ heap.now.config.pools }
    requires may { FreeMay dom.old.view at pool class slot }
    ensures here { IsIn dom.new heap.now }
    ensures told { FreedTold pool class slot dom.old.view 0 dom.new.view }
{
    let index = heap.index_of(at);
    raw_store::<Brand, Freeing>(heap, dom, index, 0, &Freeing { pool, class, slot }, &[]);
}
