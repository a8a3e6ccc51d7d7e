//! A minor area and a remembered set that fill.
ghost use Rattle.std.specs.Prelude.{◌≡◌, ◌+◌, ◌^◌, ◌<◌, ◌≤◌, true};
ghost use Rattle.heap_rule.specs.Running.{Runs};

use crate::calls::fixtures::{one_domain, same};
use do_alloc::young::{Need, alloc_young};
use do_fields::fields::store;
use heap_rule::{Domain, Heap};
use model_core::reply::Reply;
use std::test::Fail;

// Stores register `item` into a field of the block in register `block`, where one more field can be remembered.
fn stored(heap: &Heap, dom: &mut Domain, block: u8, index: u16, item: u8) -> Option<Reply>
    requires runs { Runs heap.now dom.old }
    requires block { block < 16 }
    requires item { item < 16 }
    ensures { Runs heap.now dom.new }
{
    if dom.remembered_room() < 1 {
        return None;
    }
    Some(store(heap, dom, block, index, item))
}

// Stores register 1 into field 3 of the shared block until no more fields can be remembered. Answers how often it did.
fn fill_remembered(heap: &Heap, dom: &mut Domain) -> u32
    requires { Runs heap.now dom.old }
    ensures { Runs heap.now dom.new }
{
    for made in 0..10_000u32 {
        if stored(heap, dom, 0, 3, 1).is_none() {
            return made;
        }
    }
    10_000
}

// Allocates blocks of 126 fields, each of which takes 128 words, until the area is full. Answers how many there were, and why
// there are no more.
fn fill_area(heap: &Heap, dom: &mut Domain) -> (u32, Option<Need>)
    requires { Runs heap.now dom.old }
{
    for made in 0..10_000u32 {
        if dom.labels_made() > 20_000 {
            return (made, None);
        }
        if let Err(need) = alloc_young(heap, dom, 1, 0, 126) {
            return (made, Some(need));
        }
    }
    (10_000, None)
}

// The shared block lies in a pool. A field of it that gets a young block is remembered, and neither one that gets the shared
// block nor the young block's own. 4096 fields can be remembered, and behind the block of four words 31 of 128 find room.
#[test]
fn a_minor_area_and_a_remembered_set_fill(rt: HostRuntime) -> Result<(), Fail> {
    let (heap, mut dom) = one_domain(rt.alloc())?;
    if alloc_young(&heap, &mut dom, 1, 0, 2).is_err() {
        return Err("no block")?;
    }
    same(&rt, stored(&heap, &mut dom, 0, 15, 1), Some(Reply::Done));
    same(&rt, stored(&heap, &mut dom, 0, 3, 0), Some(Reply::Done));
    same(&rt, stored(&heap, &mut dom, 1, 1, 1), Some(Reply::Done));
    if dom.remembered_len() != 1 {
        return Err(Fail::from("not one field is remembered"));
    }
    same(&rt, dom.remembered_at(0), 18);
    same(&rt, fill_remembered(&heap, &mut dom), 4095);
    same(
        &rt,
        (dom.remembered_len(), dom.remembered_room()),
        (4096, 0),
    );
    same(
        &rt,
        fill_area(&heap, &mut dom),
        (31, Some(Need::AreaFull { used: 3972 })),
    );
    Ok(())
}
