//! The steps of a pause, for two domains in turn.
ghost use Rattle.heap_rule.specs.Running.{Runs};

use crate::calls::fixtures::{same, two_domains};
use gc_pause::stops::{Look, Want, Wants, arrive, ask, is_wanted, look, wants};
use heap_rule::{Domain, Heap};
use std::test::Fail;

// The wishes so far.
fn wanted(heap: &Heap, dom: &mut Domain) -> Wants
    requires { Runs heap.now dom.old }
    ensures { Runs heap.now dom.new }
{
    wants(heap, dom)
}

// The domain asks for a pause.
fn asked(heap: &Heap, dom: &mut Domain, want: Want)
    requires { Runs heap.now dom.old }
    ensures { Runs heap.now dom.new }
{
    ask(heap, dom, want);
}

// The domain arrives, and looks.
fn arrived(heap: &Heap, dom: &mut Domain) -> Option<Look>
    requires { Runs heap.now dom.old }
{
    if dom.arrivals() >= 1_000_000 {
        return None;
    }
    arrive(heap, dom);
    Some(look(heap, dom))
}

#[test]
fn a_wish_is_found_and_the_last_arrival_ends_the_phase(rt: HostRuntime) -> Result<(), Fail> {
    let (heap, mut first, mut second) = two_domains(rt.alloc())?;
    same(&rt, wanted(&heap, &mut first).bits, 0);
    asked(&heap, &mut second, Want::Minor);
    asked(&heap, &mut second, Want::Full);
    let found = wanted(&heap, &mut first);
    same(&rt, found.bits, 9);
    same(
        &rt,
        (is_wanted(found, Want::Full), is_wanted(found, Want::Cycle)),
        (true, false),
    );
    same(&rt, arrived(&heap, &mut first), Some(Look::NotAll(1)));
    same(&rt, arrived(&heap, &mut second), Some(Look::Lead));
    same(&rt, (first.arrivals(), second.arrivals()), (1, 1));
    Ok(())
}
