//! Two threads with a seat each; one rests while the other asks for collections.
ghost use Rattle.std.specs.Prelude.{◌≡◌, IfOk};
ghost use Rattle.run_seats.specs.Seating.{IsSeatOf};

use heap_rule::{Config, StartFault};
use model_core::command::Command;
use model_core::reply::Reply;
use run_seats::{Resting, Seat, Seats};
use std::alloc::Global;
use std::sync::Wait;
use std::test::Fail;
use std::thread::{Threads, join};

// Makes a command, where the seat takes it.
pub(crate) fn made(
    rt: &impl Wait,
    seats: &Seats,
    seat: &mut Seat,
    command: Command,
) -> Option<Reply>
    requires here { IsSeatOf seats.now seat.old }
    ensures here { IsSeatOf seats.now seat.new }
{
    if seat.refuses(&command).is_some() {
        return None;
    }
    Some(seat.perform(rt, seats, command))
}

// Builds and forgets lists, with a full_major every so often, and rests in the end.
fn builds(rt: &impl Wait, seats: &Seats, resting: Resting, rounds: u32) -> (Resting, u32)
    requires here { IsSeatOf seats.now resting }
    ensures here { IsSeatOf seats.now result.0 }
{
    let mut seat = resting.resume(rt, seats);
    let mut lives = 0;
    for round in 0..rounds {
        made(
            rt,
            seats,
            &mut seat,
            Command::Alloc {
                dst: 1,
                tag: 0,
                fields: 2,
            },
        );
        made(
            rt,
            seats,
            &mut seat,
            Command::Store {
                block: 1,
                index: 0,
                item: 2,
            },
        );
        made(rt, seats, &mut seat, Command::Copy { dst: 2, src: 1 });
        if round % 1000 == 999 {
            made(rt, seats, &mut seat, Command::Forget { dst: 2 });
            let reply = made(rt, seats, &mut seat, Command::FullMajor);
            if matches!(reply, Some(Reply::Live { .. })) {
                lives += 1;
            }
        }
    }
    (seat.rest(rt, seats), lives)
}

// Rests for most of the time.
fn dozes(rt: &impl Wait, seats: &Seats, resting: Resting, rounds: u32) -> (Resting, u32)
    requires here { IsSeatOf seats.now resting }
    ensures here { IsSeatOf seats.now result.0 }
{
    let mut resting = resting;
    let mut done = 0;
    for _ in 0..rounds {
        let mut seat = resting.resume(rt, seats);
        if made(rt, seats, &mut seat, Command::PutInt { dst: 3, value: 7 }) == Some(Reply::Done) {
            done += 1;
        }
        resting = seat.rest(rt, seats);
    }
    (resting, done)
}

// A heap of two domains, and its seats.
fn two_seats(
    rt: &impl Wait,
    alloc: Global,
    config: Config,
) -> Result<(Seats, Resting, Resting), StartFault>
    requires two { config.domains ≡ 2 }
    ensures first { IfOk result (λ r. IsSeatOf r.0 r.1) }
    ensures second { IfOk result (λ r. IsSeatOf r.0 r.2) }
{
    let (seats, mut all) = Seats::make(rt, alloc, config)?;
    let second = all.remove(1);
    let first = all.remove(0);
    Ok((seats, first, second))
}

#[test]
fn one_builds_while_another_dozes(rt: HostRuntime) -> Result<(), Fail> {
    let config = Config {
        domains: 2,
        minor_words: 4096,
        pools: 128,
        finals: 0,
        ephes: 4,
    };
    let alloc = rt.alloc();
    let (seats, first, second) = two_seats(&rt, alloc, config)?;
    let shared = &seats;
    let ((first, lives), (second, done)) = join(
        &rt,
        || -> (Resting, u32)
            requires { IsSeatOf shared.now first }
            ensures { IsSeatOf shared.entry.now result.0 }
        { builds(&rt, shared, first, 2_000) },
        || -> (Resting, u32)
            requires { IsSeatOf shared.now second }
            ensures { IsSeatOf shared.entry.now result.0 }
        { dozes(&rt, shared, second, 100) },
    );
    assert!(&rt; lives == 2 && done == 100);
    let mut back = Vec::with_capacity(alloc, 2)?;
    back.push_reserved(first.resume(&rt, &seats));
    back.push_reserved(second.resume(&rt, &seats));
    let ended = seats.stop(&rt, alloc, back)?;
    ended.shows_legal();
    Ok(())
}
