//! What domain 0 does in odd phases with the list of free pools: it looks at it, writes it anew, and sets the cursor back.
ghost use Rattle.heap_rule.specs.Token.{IsIn};
ghost use Rattle.std.specs.Prelude.{◌≡◌};
ghost use Rattle.heap_rule.specs.Pools.{limit_of};
ghost use Rattle.heap_rule.specs.declared.phase.Kind.TheVariants.{Run};
ghost use Rattle.step_pools.specs.Listings.{IsLeader, IsLooker, CountedTold, HasCounted, IsCounted, IsAbove, CursorLookTold, KeepLookTold, CursorCutTold, Empties, EmptiedTold, LookMay, LookedTold, NameMay, NamedTold, SetBackTold, CloseMay, ListedAsTold};

use heap_rule::{CURSOR, Change, Domain, Heap, LISTED, Leaving, Own, Writing, raw_load, raw_store};
use std::marker::Brand;

// The token's own data stays as it is. How many pools are listed is there for the pick alone.
#[derive(Clone, Copy)]
struct Cutting {
    count: u32,
}

impl Writing for Cutting {
    ghost use Rattle.heap_rule.specs.Raw.{CanLeave, Leaves};

    ghost can = { λ _ _ _ own. CanLeave own };

    ghost writes = { λ _ _ _ own after. Leaves own after };

    fn write(&self, _found: u64, _changes: &[Change], _own: &mut Own) {}
}

/// A load of the number of listed pools by domain 0, in an odd phase in which it hasn't named the next kind. Answers it.
pub fn listed_look(heap: &Heap, dom: &mut Domain) -> u64
    requires here { IsIn dom.old heap.now }
    requires looker { IsLooker dom.old.view }
    ensures here { IsIn dom.new heap.now }
    ensures told { CountedTold heap.now.config dom.old.view result dom.new.view }
{
    raw_load::<Brand, Leaving>(heap, dom, LISTED, &Leaving, &[])
}

/// A load of the cursor by domain 0, in the first phase of a pause. Where it is not above the limit, the domain notes that
/// it need not be set back. Answers the cursor.
pub fn cursor_look(heap: &Heap, dom: &mut Domain, count: u32) -> u64
    requires here { IsIn dom.old heap.now }
    requires counted { HasCounted Run dom.old.view count }
    ensures here { IsIn dom.new heap.now }
    ensures told { CursorLookTold heap.now.config count dom.old.view result dom.new.view }
{
    raw_load::<Brand, Cutting>(heap, dom, CURSOR, &Cutting { count }, &[])
}

/// A load of the cursor by domain 0, in an odd phase, where so many pools are listed. Where some are, and it is not above the
/// limit, the list names all free pools still, and the domain notes how many. Answers the cursor.
pub fn keep_look(heap: &Heap, dom: &mut Domain, count: u32) -> u64
    requires here { IsIn dom.old heap.now }
    requires counted { IsCounted dom.old.view count }
    ensures here { IsIn dom.new heap.now }
    ensures told { KeepLookTold heap.now.config count dom.old.view result dom.new.view }
{
    raw_load::<Brand, Cutting>(heap, dom, CURSOR, &Cutting { count }, &[])
}

/// Domain 0 sets the cursor, which it knows to be above the limit, to the limit.
pub fn cursor_cut(heap: &Heap, dom: &mut Domain, count: u32, new: u64)
    requires here { IsIn dom.old heap.now }
    requires above { IsAbove heap.now.config dom.old.view count }
    requires limit { new ≡ limit_of heap.now.config count }
    ensures here { IsIn dom.new heap.now }
    ensures told { CursorCutTold dom.old.view new dom.new.view }
{
    raw_store::<Brand, Leaving>(heap, dom, CURSOR, new, &Leaving, &[]);
}

/// Domain 0 empties the list of free pools: none is listed.
pub fn listed_clear(heap: &Heap, dom: &mut Domain)
    requires here { IsIn dom.old heap.now }
    requires leader { IsLeader dom.old.view }
    ensures here { IsIn dom.new heap.now }
    ensures told { EmptiedTold dom.old.view 0 dom.new.view }
{
    raw_store::<Brand, Leaving>(heap, dom, LISTED, 0, &Leaving, &[]);
}

/// A load of the owner word of the next pool, `at` being the word's index. Answers the word.
pub fn owner_look(heap: &Heap, dom: &mut Domain, at: u32) -> u64
    requires here { IsIn dom.old heap.now }
    requires may { LookMay heap.now.config dom.old.view at }
    ensures here { IsIn dom.new heap.now }
    ensures told { LookedTold dom.old.view result dom.new.view }
{
    raw_load::<Brand, Leaving>(heap, dom, at as usize, &Leaving, &[])
}

/// A store of a pool's number at the next place of the empty list, `at` being the word's index.
pub fn list_store(heap: &Heap, dom: &mut Domain, at: u32, new: u64)
    requires here { IsIn dom.old heap.now }
    requires may { NameMay heap.now.config dom.old.view at }
    ensures here { IsIn dom.new heap.now }
    ensures told { NamedTold dom.old.view new dom.new.view }
{
    raw_store::<Brand, Leaving>(heap, dom, at as usize, new, &Leaving, &[]);
}

/// Domain 0 sets the cursor of the empty list back to 0.
pub fn cursor_clear(heap: &Heap, dom: &mut Domain)
    requires here { IsIn dom.old heap.now }
    requires empties { Empties dom.old.view }
    ensures here { IsIn dom.new heap.now }
    ensures told { SetBackTold dom.old.view 0 dom.new.view }
{
    raw_store::<Brand, Leaving>(heap, dom, CURSOR, 0, &Leaving, &[]);
}

/// Domain 0 stores how many pools are listed, where the list names all those whose owner words say
/// nobody.
pub fn listed_store(heap: &Heap, dom: &mut Domain, new: u64)
    requires here { IsIn dom.old heap.now }
    requires may { CloseMay heap.now.config dom.old.view new }
    ensures here { IsIn dom.new heap.now }
    ensures told { ListedAsTold dom.old.view new dom.new.view }
{
    raw_store::<Brand, Leaving>(heap, dom, LISTED, new, &Leaving, &[]);
}
