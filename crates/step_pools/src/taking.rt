//! The taking of a free block of the pools, and the making of a block there.
ghost use Rattle.std.specs.Prelude.{◌≡◌, ◌+◌, ◌<◌, ◌≤◌};
ghost use Rattle.model_core.specs.Domains.{class_count, reserve as reserve_of};
ghost use Rattle.model_core.specs.declared.entry.Entry.{Entry};
ghost use Rattle.heap_rule.specs.declared.phase.Kind.TheVariants.{Run};
ghost use Rattle.heap_rule.specs.declared.phase.Stage.TheVariants.{In};
ghost use Rattle.heap_rule.specs.declared.view.Hunt.TheVariants.{Counts, Asks};
ghost use Rattle.heap_rule.specs.Limits.{sizes_in};
ghost use Rattle.heap_rule.specs.Pools.{Takes, limit_of};
ghost use Rattle.heap_rule.specs.Standing.{IsInHeap};
ghost use Rattle.step_pools.specs.Takes.{HasNoDraw, NoneFree, ListedTold, CursorTold, YoungMay, YoungTold, CursorAddTold, CopyDrawMay, CopyDrawTold, ListMay, ListTold, ClearMay, ClearTold, OwnerMay, OwnedTold, FillMay, FillTold, MajorEntry, MajorTold};
ghost use Rattle.heap_rule.specs.Token.{IsIn};
ghost use Rattle.step_pools.specs.Ephemerons.{EpheEntry, EpheTold};

use heap_rule::{
    CURSOR, Change, Domain, Heap, LISTED, Leaving, Own, Search, Writing, make_changes, raw_add,
    raw_load, raw_store,
};
use heap_words::Value;
use heap_words::classes::reserve;
use std::marker::Brand;

// The token's own data stays as it is. What the step is about is there for the pick alone.
#[derive(Clone, Copy)]
struct Asking {
    count: u32,
    class: u32,
}

impl Writing for Asking {
    ghost use Rattle.heap_rule.specs.Raw.{CanLeave, Leaves};

    ghost can = { λ _ _ _ own. CanLeave own };

    ghost writes = { λ _ _ _ own after. Leaves own after };

    fn write(&self, _found: u64, _changes: &[Change], _own: &mut Own) {}
}

// A pool is the domain's own, and the places of its class are looked at from it on: none of another pool is free.
#[derive(Clone, Copy)]
struct Owning {
    pool: u32,
    class: u32,
}

impl Writing for Owning {
    ghost use Rattle.step_pools.specs.Writes.{CanLook, LooksFrom};

    ghost can = { λ s _ _ _. CanLook s.pool s.class };

    ghost writes = { λ s _ _ own after. LooksFrom s.pool s.class own after };

    fn write(&self, _found: u64, _changes: &[Change], own: &mut Own) {
        own.looked[self.class as usize] = Search {
            pool: self.pool,
            slot: 0,
            only: true,
        };
        if self.pool >= own.swept.top {
            own.swept.top = self.pool + 1;
        }
    }
}

// The changes are made in the registers, and a label is counted.
#[derive(Clone, Copy)]
struct Labelling;

impl Writing for Labelling {
    ghost use Rattle.step_pools.specs.Writes.{CanLabel, Labels};

    ghost can = { λ _ _ changes own. CanLabel changes own };

    ghost writes = { λ _ _ changes own after. Labels changes own after };

    fn write(&self, _found: u64, changes: &[Change], own: &mut Own) {
        let serial = own.serial + 1;
        make_changes(own, Value::Nothing, changes);
        own.serial = serial;
    }
}

// The changes are made in the registers, a label is counted, and the ephemeron at the address is
// listed.
#[derive(Clone, Copy)]
struct Listing {
    at: u32,
}

impl Writing for Listing {
    ghost use Rattle.step_pools.specs.Ephemerons.{CanList, ListsEphemeron};

    ghost can = { λ _ _ changes own. CanList changes own };

    ghost writes = { λ s _ changes own after. ListsEphemeron s.at changes own after };

    fn write(&self, _found: u64, changes: &[Change], own: &mut Own) {
        let serial = own.serial + 1;
        make_changes(own, Value::Nothing, changes);
        own.serial = serial;
        own.ephemerons.push(self.at);
    }
}

/// How many of so many listed pools running domains may draw: all but those of the reserve of promotion.
pub fn draw_limit(heap: &Heap, count: u32) -> u32
    ensures value { result ≡ limit_of heap.now.config count }
    ensures rest { count ≤ result + reserve_of (sizes_in heap.now.config) }
    ensures low { result ≤ count }
{
    let config = heap.config();
    let kept = reserve(config.domains, config.minor_words);
    if count < kept { 0 } else { count - kept }
}

/// A load of the number of listed pools. Answers it.
pub fn listed_load(heap: &Heap, dom: &mut Domain) -> u64
    requires here { IsIn dom.old heap.now }
    requires at_rest { HasNoDraw dom.old.view }
    requires runs { dom.old.view.seen.stage ≡ In Run }
    ensures here { IsIn dom.new heap.now }
    ensures told { ListedTold heap.now.config dom.old.view result dom.new.view }
{
    raw_load::<Brand, Leaving>(heap, dom, LISTED, &Leaving, &[])
}

/// A load of the cursor, for a pool of a class of which no place of an own pool is free. Where it is below
/// the limit the domain may ask for the pool. Answers the cursor.
pub fn cursor_load(heap: &Heap, dom: &mut Domain, count: u32, class: u32) -> u64
    requires here { IsIn dom.old heap.now }
    requires counts { dom.old.view.seen.hunt ≡ Counts count }
    requires none_free { NoneFree heap.now.config dom.old.view class }
    requires runs { dom.old.view.seen.stage ≡ In Run }
    ensures here { IsIn dom.new heap.now }
    ensures told { CursorTold heap.now.config count dom.old.view result dom.new.view }
{
    raw_load::<Brand, Asking>(heap, dom, CURSOR, &Asking { count, class }, &[])
}

/// A load of the number of listed pools by a domain that is to make a young block. Running domains draw
/// no pool of the reserve, so those are free as far as they are listed. Answers the number.
pub fn young_look(heap: &Heap, dom: &mut Domain) -> u64
    requires here { IsIn dom.old heap.now }
    requires may { YoungMay heap.now.config dom.old.view }
    ensures here { IsIn dom.new heap.now }
    ensures told { YoungTold heap.now.config dom.old.view result dom.new.view }
{
    raw_load::<Brand, Leaving>(heap, dom, LISTED, &Leaving, &[])
}

/// An add of 1 to the cursor. Where it was below the limit the pool at that place of the list is
/// drawn. Answers what it was.
pub fn cursor_add(heap: &Heap, dom: &mut Domain, count: u32, class: u32) -> u64
    requires here { IsIn dom.old heap.now }
    requires asks { dom.old.view.seen.hunt ≡ Asks count }
    requires class { class < class_count }
    requires none_free { NoneFree heap.now.config dom.old.view class }
    requires runs { dom.old.view.seen.stage ≡ In Run }
    ensures here { IsIn dom.new heap.now }
    ensures told { CursorAddTold heap.now.config count class dom.old.view result dom.new.view }
{
    raw_add::<Brand, Asking>(heap, dom, CURSOR, 1, &Asking { count, class }, &[])
}

/// An add of 1 to the cursor by a domain that copies young blocks. A pool is always drawn. Answers what
/// the cursor was, which is the pool's place in the list.
pub fn copy_draw(heap: &Heap, dom: &mut Domain, class: u32) -> u64
    requires here { IsIn dom.old heap.now }
    requires may { CopyDrawMay heap.now.config dom.old.view class }
    ensures here { IsIn dom.new heap.now }
    ensures told { CopyDrawTold heap.now.config class dom.old.view result dom.new.view }
{
    raw_add::<Brand, Asking>(heap, dom, CURSOR, 1, &Asking { count: 0, class }, &[])
}

/// A load of the list at the place drawn, `at` being the word's index. Answers the pool.
pub fn list_load(heap: &Heap, dom: &mut Domain, at: u32) -> u64
    requires here { IsIn dom.old heap.now }
    requires may { ListMay heap.now.config dom.old.view at }
    requires takes { Takes dom.old.view.seen.stage }
    ensures here { IsIn dom.new heap.now }
    ensures told { ListTold dom.old.view result dom.new.view }
{
    raw_load::<Brand, Leaving>(heap, dom, at as usize, &Leaving, &[])
}

/// A store of Free at the next place of the pool drawn.
pub fn clear_store(
    heap: &Heap,
    dom: &mut Domain,
    at: u32,
    new: u64,
    pool: u32,
    class: u32,
    slot: u32,
)
    requires here { IsIn dom.old heap.now }
    requires inside { IsInHeap heap.now.config at }
    requires may { ClearMay dom.old.view at new pool class slot }
    requires takes { Takes dom.old.view.seen.stage }
    ensures here { IsIn dom.new heap.now }
    ensures told { ClearTold dom.old.view new dom.new.view }
{
    let index = heap.index_of(at);
    raw_store::<Brand, Leaving>(heap, dom, index, new, &Leaving, &[]);
}

/// A store of the owner word of the pool drawn, all of whose places are free. Its first place is then
/// taken. `at` is the word's index.
pub fn owner_store(heap: &Heap, dom: &mut Domain, at: u32, new: u64, pool: u32, class: u32)
    requires here { IsIn dom.old heap.now }
    requires inside { (pool < heap.now.config.pools) × (class < class_count) }
    requires may { OwnerMay heap.now.config dom.old.view at new pool class }
    requires takes { Takes dom.old.view.seen.stage }
    ensures here { IsIn dom.new heap.now }
    ensures told { OwnedTold pool class dom.old.view new dom.new.view }
{
    let _limits = heap.config();
    raw_store::<Brand, Owning>(heap, dom, at as usize, new, &Owning { pool, class }, &[]);
}

/// A store of the next word behind the head's of the place taken.
pub fn fill_store(heap: &Heap, dom: &mut Domain, at: u32, new: u64)
    requires here { IsIn dom.old heap.now }
    requires inside { IsInHeap heap.now.config at }
    requires may { FillMay dom.old.view at }
    requires takes { Takes dom.old.view.seen.stage }
    ensures here { IsIn dom.new heap.now }
    ensures told { FillTold dom.old.view new dom.new.view }
{
    let index = heap.index_of(at);
    raw_store::<Brand, Leaving>(heap, dom, index, new, &Leaving, &[]);
}

/// The store of the head at the place taken, at which the block comes to live and the entry of the
/// allocation stands.
pub fn head_store(heap: &Heap, dom: &mut Domain, at: u32, new: u64, changes: &[Change])
    ghost entry: { Entry }
    requires here { IsIn dom.old heap.now }
    requires inside { IsInHeap heap.now.config at }
    requires may { MajorEntry heap.now.config dom.old.view at new changes.now entry }
    ensures here { IsIn dom.new heap.now }
    ensures told { MajorTold heap.now.config entry changes.now dom.old.view dom.new.view }
{
    let index = heap.index_of(at);
    raw_store::<Brand, Labelling>(heap, dom, index, new, &Labelling, changes);
}

/// The store of the head of an ephemeron at the place taken, at which the ephemeron comes to live,
/// the domain lists it, and the entry of its allocation stands. The words behind the label are those
/// of an empty datum and of empty keys.
pub fn ephe_store(heap: &Heap, dom: &mut Domain, at: u32, new: u64, changes: &[Change])
    ghost entry: { Entry }
    requires here { IsIn dom.old heap.now }
    requires inside { IsInHeap heap.now.config at }
    requires may { EpheEntry heap.now.config dom.old.view at new changes.now entry }
    ensures here { IsIn dom.new heap.now }
    ensures told { EpheTold heap.now.config entry at changes.now dom.old.view dom.new.view }
{
    let index = heap.index_of(at);
    raw_store::<Brand, Listing>(heap, dom, index, new, &Listing { at }, changes);
}
