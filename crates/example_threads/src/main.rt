//! Two threads on one heap, each with a seat and a list of commands. The first makes a block with a finaliser, lets it go and asks
//! for a complete collection, while the second makes blocks of its own. The program prints how many finalisers ran.
#![tactic(auto)]

ghost use Rattle.run_seats.specs.Seating.{IsSeatOf};

use heap_rule::{Config, StartFault};
use model_core::command::Command;
use run_seats::{Resting, Seat, Seats};
use std::alloc::Global;
use std::process::ExitCode;
use std::sync::Wait;
use std::thread::{Threads, join};

// A new block of two fields in register 1.
const BLOCK: Command = Command::Alloc {
    dst: 1,
    tag: 0,
    fields: 2,
};

// Takes the replies of the finalisers that ran, and answers how many.
fn take_all(seats: &Seats, seat: &mut Seat) -> usize
    requires here { IsSeatOf seats.now seat.old }
    ensures here { IsSeatOf seats.now seat.new }
{
    let count = seat.ran_len();
    'waiting: for _ in 0..count {
        seat.take_ran();
    }
    count
}

// Makes the commands on a seat that it takes, and answers how many finalisers ran before them.
fn works(rt: &impl Wait, seats: &Seats, resting: Resting, commands: &[Command]) -> (Resting, usize)
    requires here { IsSeatOf seats.now resting }
    ensures here { IsSeatOf seats.now result.0 }
{
    let mut seat = resting.resume(rt, seats);
    let mut ran: usize = 0;
    'commands: for command in commands {
        if seat.refuses(command).is_none() {
            seat.perform(rt, seats, *command);
            ran = ran.saturating_add(take_all(seats, &mut seat));
        }
    }
    (seat.rest(rt, seats), ran)
}

// Starts a heap of two domains, runs both threads, and ends the heap. Answers how many finalisers ran.
fn run(rt: &(impl Wait + Threads + Sync), alloc: Global) -> Result<usize, StartFault> {
    let config = Config {
        domains: 2,
        minor_words: 4096,
        pools: 128,
        finals: 4,
        ephes: 4,
    };
    let closing = Command::FinaliseLast { item: 1, number: 7 };
    let lets_go = [
        BLOCK,
        closing,
        Command::Forget { dst: 1 },
        Command::FullMajor,
        // The collection queues the finaliser. It runs before the next command, and its reply waits then.
        Command::Poll,
    ];
    let builds = [BLOCK; 1000];
    let (seats, mut all) = Seats::make(rt, alloc, config)?;
    let second = all.remove(1);
    let first = all.remove(0);
    let shared = &seats;
    let ((first, ran), (second, others)) = join(
        rt,
        || -> (Resting, usize)
            requires { IsSeatOf shared.now first }
            ensures { IsSeatOf shared.entry.now result.0 }
        { works(rt, shared, first, &lets_go) },
        || -> (Resting, usize)
            requires { IsSeatOf shared.now second }
            ensures { IsSeatOf shared.entry.now result.0 }
        { works(rt, shared, second, &builds) },
    );
    let mut back = Vec::with_capacity(alloc, 2)?;
    back.push_reserved(first.resume(rt, shared));
    back.push_reserved(second.resume(rt, shared));
    seats.stop(rt, alloc, back)?;
    Ok(ran.saturating_add(others))
}

fn main(rt: HostRuntime) -> ExitCode {
    match run(&rt, rt.alloc()) {
        Ok(ran) => {
            let _ = println!(&rt; "finalisers that ran: {ran}");
            ExitCode::from(0)
        }
        Err(_) => ExitCode::from(5),
    }
}
