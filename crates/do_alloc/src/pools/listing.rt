//! The list of free pools, written anew, and its cursor set back.
ghost use Rattle.std.specs.Prelude.{◌≡◌, ◌+◌, ◌<◌, ◌≤◌, Some, None, IfSome};
ghost use Rattle.heap_rule.specs.declared.phase.Note.TheVariants.{SetBack};
ghost use Rattle.heap_rule.specs.Phases.{last_note};
ghost use Rattle.heap_rule.specs.Token.{IsIn};
ghost use Rattle.step_pools.specs.Listings.{IsLeader, IsOpener, HasList, IsListedCount, ListStays, NamesAll};
ghost use Rattle.do_alloc.specs.Pools.Listed.{HasListed, ListsFree, Relisted, SetsBack};

use heap_rule::{Domain, Heap};
use step_pools::{
    cursor_clear, cursor_cut, cursor_look, draw_limit, keep_look, list_store, listed_clear,
    listed_look, listed_store, owner_look,
};

// The index of the first word of the list, and of the first owner word less the number of pools.
const LIST: u32 = 11;

// Looks at the owner word of the next pool, which is at `at`, and where it says nobody writes the pool
// into the list, which names so many. Answers how many it then names.
fn list_pool(heap: &Heap, dom: &mut Domain, at: u32, pool: u32, count: u32) -> u32
    requires here { IsIn dom.old heap.now }
    requires word { at ≡ 11 + heap.now.config.pools + pool }
    requires inside { pool < heap.now.config.pools }
    requires few { count ≤ pool }
    requires listed { HasListed dom.old.view pool count }
    ensures here { IsIn dom.new heap.now }
    ensures few { result ≤ pool + 1 }
    ensures listed { HasListed dom.new.view (pool + 1) result }
    ensures same { Relisted dom.old.view dom.new.view }
{
    let _limits = heap.config();
    if owner_look(heap, dom, at) != 0 {
        return count;
    }
    list_store(heap, dom, LIST + count, u64::from(pool));
    count + 1
}

// Writes the pools that are nobody's into the empty list. Answers how many they are. A minor collection
// spends most of its instructions here, so the loop has a function, and registers, of its own.
#[inline(never)]
fn list_pools(heap: &Heap, dom: &mut Domain) -> u32
    requires here { IsIn dom.old heap.now }
    requires empty { HasListed dom.old.view 0 0 }
    ensures here { IsIn dom.new heap.now }
    ensures listed { HasListed dom.new.view heap.now.config.pools result }
    ensures same { Relisted dom.old.view dom.new.view }
{
    let pools = heap.config().pools;
    let owners = LIST + pools;
    let mut count = 0;
    for pool in 0..pools {
        count = list_pool(heap, dom, owners + pool, pool, count);
    }
    count
}

// Domain 0 writes the list of free pools anew, in an odd phase in which nothing lives in minor areas
// and it hasn't named the next kind: the list then names exactly the pools that are nobody's, rising,
// and the cursor is 0. All other words, and all that the domain owns, stay as they are. Answers how
// many pools are listed, and notes it.
//
// While it writes, no pool is listed: the number of listed pools is 0 first, and set last.
fn write_list(heap: &Heap, dom: &mut Domain) -> u32
    requires here { IsIn dom.old heap.now }
    requires leader { IsLeader dom.old.view }
    ensures here { IsIn dom.new heap.now }
    ensures list { HasList heap.now.config dom.new.view }
    ensures count { IsListedCount heap.now.config dom.new.view result }
    ensures lists { ListsFree result dom.old.view dom.new.view }
{
    listed_clear(heap, dom);
    let count = list_pools(heap, dom);
    cursor_clear(heap, dom);
    listed_store(heap, dom, u64::from(count));
    count
}

// How many pools the list names behind the cursor, where some are listed and copies have drawn none of the reserve: then
// it stays.
fn still_listed(heap: &Heap, dom: &mut Domain) -> Option<u32>
    requires here { IsIn dom.old heap.now }
    requires leader { IsLeader dom.old.view }
    ensures here { IsIn dom.new heap.now }
    ensures stays { IfSome result (λ _. ListStays heap.now.config dom.new.view) }
    ensures lists { IfSome result (λ count. ListsFree count dom.old.view dom.new.view) }
    ensures same { result ≡ None → Relisted dom.old.view dom.new.view }
{
    let _limits = heap.config();
    let count = listed_look(heap, dom) as u32;
    if count == 0 {
        return None;
    }
    let cursor = keep_look(heap, dom, count);
    if cursor > u64::from(draw_limit(heap, count)) {
        return None;
    }
    Some(count - cursor as u32)
}

/// Domain 0, in an odd phase in which nothing lives in minor areas and it hasn't named the next kind, sees to it that the
/// list names all free pools. Where a pool has come back since it was written it names none, and is written anew, and so is
/// it where copies have drawn pools of the reserve. Else it stays. All that the domain owns stays as it is. Answers how many
/// free pools are listed, and notes it.
pub fn list_free(heap: &Heap, dom: &mut Domain) -> u32
    requires here { IsIn dom.old heap.now }
    requires leader { IsLeader dom.old.view }
    ensures here { IsIn dom.new heap.now }
    ensures list { NamesAll heap.now.config dom.new.view }
    ensures lists { ListsFree result dom.old.view dom.new.view }
{
    match still_listed(heap, dom) {
        Some(count) => count,
        None => write_list(heap, dom),
    }
}

/// Domain 0, in the first phase of a pause in which it hasn't named the next kind, sets the cursor back
/// to the limit of running domains where it stands above, and notes that it did. All that the domain
/// owns stays as it is, and so does what it knows, but for how many pools are listed.
pub fn set_cursor_back(heap: &Heap, dom: &mut Domain)
    requires here { IsIn dom.old heap.now }
    requires opener { IsOpener dom.old.view }
    ensures here { IsIn dom.new heap.now }
    ensures noted { last_note dom.new.view.seen.notes ≡ Some SetBack }
    ensures same { SetsBack dom.old.view dom.new.view }
{
    let _limits = heap.config();
    let count = listed_look(heap, dom) as u32;
    let limit = u64::from(draw_limit(heap, count));
    if cursor_look(heap, dom, count) > limit {
        cursor_cut(heap, dom, count, limit);
    }
}
