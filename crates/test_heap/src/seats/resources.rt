//! Resources of two threads: each is closed once, by its owner or by its finaliser.
ghost use Rattle.std.specs.Prelude.{◌≡◌, IfOk};
ghost use Rattle.run_seats.specs.Seating.{IsSeatOf};

use example_handles::{Handles, Resource, RestingHandles};
use heap_rule::StartFault;
use model_core::command::Command;
use run_seats::Seats;
use std::alloc::Global;
use std::sync::Wait;
use std::test::Fail;
use std::thread::{Threads, join};

// Opens three resources. Stores the handle of one into the shared block, forgets that of the next, and closes the last.
fn works(rt: &impl Wait, seats: &Seats, resting: RestingHandles, place: u16) -> RestingHandles
    requires here { IsSeatOf seats.now resting.seat }
    ensures here { IsSeatOf seats.now result.seat }
{
    let mut handles = resting.resume(rt, seats);
    handles.open(rt, seats, 1);
    let stored = Command::Store {
        block: 0,
        index: place,
        item: 1,
    };
    handles.perform(rt, seats, stored);
    handles.open(rt, seats, 1);
    handles.perform(rt, seats, Command::Forget { dst: 1 });
    handles.open(rt, seats, 2);
    handles.close(2);
    handles.collect(rt, seats);
    handles.rest(rt, seats)
}

// Overwrites the field of the shared block by which the handle of another thread is held.
fn lets_go(rt: &impl Wait, seats: &Seats, resting: RestingHandles, place: u16) -> RestingHandles
    requires here { IsSeatOf seats.now resting.seat }
    ensures here { IsSeatOf seats.now result.seat }
{
    let mut handles = resting.resume(rt, seats);
    handles.perform(rt, seats, Command::PutInt { dst: 3, value: 7 });
    let over = Command::Store {
        block: 0,
        index: place,
        item: 3,
    };
    handles.perform(rt, seats, over);
    handles.rest(rt, seats)
}

// A heap of two domains, and the handles of their seats.
fn two_handles(
    rt: &impl Wait,
    alloc: Global,
) -> Result<(Seats, RestingHandles, RestingHandles), StartFault>
    ensures first { IfOk result (λ r. IsSeatOf r.0 r.1.seat) }
    ensures second { IfOk result (λ r. IsSeatOf r.0 r.2.seat) }
{
    let (seats, mut all) = Handles::make(rt, alloc, 2, 4096, 64, 3)?;
    let second = all.remove(1);
    let first = all.remove(0);
    Ok((seats, first, second))
}

#[test]
fn each_resource_is_closed_once(rt: HostRuntime) -> Result<(), Fail> {
    let alloc = rt.alloc();
    let (seats, first, second) = two_handles(&rt, alloc)?;
    let shared = &seats;
    let (first, second) = join(
        &rt,
        || -> RestingHandles
            requires { IsSeatOf shared.now first.seat }
            ensures { IsSeatOf shared.entry.now result.seat }
        { works(&rt, shared, first, 0) },
        || -> RestingHandles
            requires { IsSeatOf shared.now second.seat }
            ensures { IsSeatOf shared.entry.now result.seat }
        { works(&rt, shared, second, 1) },
    );
    let first = lets_go(&rt, &seats, first, 1);
    let mut back = Vec::with_capacity(alloc, 2)?;
    back.push_reserved(first);
    back.push_reserved(second);
    let (ended, left) = Handles::stop(&rt, alloc, seats, back)?;
    ended.shows_legal();
    let closed = Resource::ClosedByFinaliser;
    let owner = Resource::ClosedByOwner;
    assert!(&rt; left.len() == 2);
    assert!(&rt; left[0].as_slice() == [Resource::Open, closed, owner].as_slice());
    assert!(&rt; left[1].as_slice() == [closed, closed, owner].as_slice());
    Ok(())
}
