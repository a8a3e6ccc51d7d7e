//! The prelude: how the hidden block comes into register 15 of each domain, before any section begins.
ghost use Rattle.std.specs.Prelude.{◌≡◌, ◌+◌, ◌<◌, ◌≤◌, ℕ, length, slice_get, vec_capacity, Some};
ghost use Rattle.heap_rule.specs.Opening.{opening_token, opening_tokens};
ghost use Rattle.heap_rule.specs.Running.{Runs};
ghost use Rattle.heap_rule.specs.Token.{Token};
ghost use Rattle.do_spawn.specs.Opening.{Began, Cleared, HandedAt, HandedOver, HandedUpto, IsOpened, MadeHidden, MetAt, MetUpto};

use crate::flags::{HIDDEN, SCRATCH};
use do_alloc::pools::alloc_major;
use do_fields::fields::{forget, load, put_int, store};
use heap_rule::{Domain, Heap};

// The register with the shared block, and its field through which the hidden one is handed on.
const SHARED: u8 = 0;

const HANDED: u16 = 15;

// How many fields the hidden block has.
const FIELDS: u16 = 24;

// Domain 0 makes the block, for which a place is free from the start, and lays it into the shared one.
fn make_hidden(heap: &Heap, first: &mut Domain)
    requires starts { first.old ≡ opening_token heap.now.table heap.now.config 0 }
    requires some { 0 < heap.now.config.domains }
    ensures made { MadeHidden heap.now first.new }
{
    let _limits = heap.config();
    let Ok(_label) = alloc_major(heap, first, HIDDEN, 0, FIELDS) else {
        unreachable!()
    };
    store(heap, first, SHARED, HANDED, HIDDEN);
}

// It meets another domain, which takes the block from there, and they meet again.
fn hand_over(heap: &Heap, first: Domain, other: Domain) -> (Domain, Domain)
    requires first { Runs heap.now first }
    requires other { Runs heap.now other }
    ensures handed { HandedOver heap.now first other result.0 result.1 }
{
    let (first, mut other) = heap.meet(first, other);
    load(heap, &mut other, HIDDEN, SHARED, HANDED);
    heap.meet(first, other)
}

// The same with the domain at a place of the others.
fn hand_over_at(heap: &Heap, first: Domain, others: &mut Vec<Domain>, at: usize) -> Domain
    requires inside { at < length others.old.items }
    requires first { Runs heap.now first }
    requires other { (t : Token) → slice_get others.old.items at ≡ Some t → Runs heap.now t }
    ensures handed { HandedAt heap.now first result others.old.items others.new.items at }
    ensures capacity { vec_capacity others.new ≡ vec_capacity others.old }
{
    let other = others.remove(at);
    let (first, other) = hand_over(heap, first, other);
    let Ok(()) = others.insert(at, other) else {
        unreachable!()
    };
    first
}

// The same with each of the others, in order.
fn hand_over_each(heap: &Heap, first: Domain, others: &mut Vec<Domain>) -> Domain
    requires begun { HandedUpto heap.now first others.old.items 0 }
    requires count { length others.old.items + 1 ≡ heap.now.config.domains }
    ensures handed { HandedUpto heap.now result others.new.items (length others.new.items) }
    ensures count { length others.new.items ≡ length others.old.items }
    ensures capacity { vec_capacity others.new ≡ vec_capacity others.old }
{
    let mut first = first;
    for at in 0..others.len() {
        first = hand_over_at(heap, first, others, at);
    }
    first
}

// Domain 0 empties that field again.
fn clear_shared(heap: &Heap, first: &mut Domain)
    requires began { Began heap.now 0 first.old }
    requires room { 1 ≤ first.old.view.own.remembered.room }
    ensures cleared { Cleared heap.now first.old first.new }
{
    put_int(heap, first, SCRATCH, 0);
    store(heap, first, SHARED, HANDED, SCRATCH);
    forget(heap, first, SCRATCH);
}

// It meets the domain at a place of the others.
fn meet_at(heap: &Heap, first: Domain, others: &mut Vec<Domain>, at: usize) -> Domain
    requires inside { at < length others.old.items }
    requires first { Runs heap.now first }
    requires other { (t : Token) → slice_get others.old.items at ≡ Some t → Runs heap.now t }
    ensures met { MetAt heap.now first result others.old.items others.new.items at }
    ensures capacity { vec_capacity others.new ≡ vec_capacity others.old }
{
    let other = others.remove(at);
    let (first, other) = heap.meet(first, other);
    let Ok(()) = others.insert(at, other) else {
        unreachable!()
    };
    first
}

// And each of them.
fn meet_each(heap: &Heap, first: Domain, others: &mut Vec<Domain>) -> Domain
    requires begun { MetUpto heap.now first.view.seen.front first others.old.items 0 }
    ensures met { MetUpto heap.now first.view.seen.front result others.new.items (length others.new.items) }
    ensures count { length others.new.items ≡ length others.old.items }
    ensures capacity { vec_capacity others.new ≡ vec_capacity others.old }
{
    let mut first = first;
    for at in 0..others.len() {
        first = meet_at(heap, first, others, at);
    }
    first
}

/// Makes the hidden block, through which sections pass values, and hands it to all domains, which are
/// those with which the heap starts. Afterwards each has the prelude in what it has seen of the history,
/// entry for entry from the beginning on: domain 0 makes the block and lays it into a field of the shared
/// one, each other domain takes it from there, in order, and domain 0 empties the field. Behind it stand
/// only calls of other domains. Register 15 of each holds the block. No pool is drawn: a block of the
/// class is free from the start.
pub fn open_hidden(heap: &Heap, domains: &mut Vec<Domain>)
    requires tokens { domains.old.items ≡ opening_tokens heap.now.table heap.now.config 0 heap.now.config.domains }
    ensures count { length domains.new.items ≡ heap.now.config.domains }
    ensures opened { (d : ℕ) (t : Token) → slice_get domains.new.items d ≡ Some t → IsOpened heap.now d t }
{
    let _limits = heap.config();
    let mut first = domains.remove(0);
    make_hidden(heap, &mut first);
    let mut first = hand_over_each(heap, first, domains);
    clear_shared(heap, &mut first);
    let first = meet_each(heap, first, domains);
    let Ok(()) = domains.insert(0, first) else {
        unreachable!()
    };
}
