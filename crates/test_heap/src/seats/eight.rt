//! Eight threads with a seat each, which rest, wait for one another outside of the heap, and end at different times.
ghost use Rattle.std.specs.Prelude.{◌≡◌, IfOk};
ghost use Rattle.std.specs.List.{AllByRecursion};
ghost use Rattle.run_seats.specs.Seating.{AllSeatsOf, IsSeatOf};

use crate::seats::judge::{is_explained, output};
use crate::seats::texts::{DOMAINS, FINALISERS, kept_back, script};
use crate::seats::threads::made;
use heap_rule::{Config, StartFault};
use model_core::command::Command;
use model_core::reply::Reply;
use run_seats::{Resting, Seat, Seats};
use std::alloc::{AllocError, Global};
use std::sync::Wait;
use std::sync::atomic::{AtomicU64, Ordering};
use std::test::Fail;
use std::thread::{Threads, map_vec, sleep};
use std::time::{Clock, Duration};
use text_script::Script;

// A thread that is more commands ahead of the slowest lets its seat rest.
const LEAD: u64 = 2;

// So often a thread looks whether the others have come up. Then it goes on, so that a test comes to its end.
const LOOKS: u32 = 100_000;

// What a thread was told.
#[derive(Drop)]
struct Told {
    replies: Vec<Reply>,
}

impl Told {
    // Takes the replies of finalisers that ran, and adds them.
    fn add_ran(&mut self, seats: &Seats, seat: &mut Seat) -> Result<(), AllocError>
        requires here { IsSeatOf seats.now seat.old }
        ensures here { IsSeatOf seats.now seat.new }
    {
        'waiting: for _ in 0..seat.ran_len() {
            if let Some(ran) = seat.take_ran() {
                self.replies.push(ran)?;
            }
        }
        Ok(())
    }
}

// What a thread ends with: its seat, which rests, and what it was told.
#[derive(Drop)]
struct Player {
    resting: Resting,
    told: Told,
}

// Makes a command, where the seat takes it, and adds what it was told.
fn make(
    rt: &impl Wait,
    seats: &Seats,
    seat: &mut Seat,
    told: &mut Told,
    command: Command,
) -> Result<(), AllocError>
    requires here { IsSeatOf seats.now seat.old }
    ensures here { IsSeatOf seats.now seat.new }
{
    told.add_ran(seats, seat)?;
    let Some(reply) = made(rt, seats, seat, command) else {
        return Ok(());
    };
    told.add_ran(seats, seat)?;
    told.replies.push(reply)?;
    Ok(())
}

// Waits, outside of the heap, until the slowest thread isn't so far behind.
fn wait_for_others<R: Clock>(rt: &R, paces: &[AtomicU64], count: u64) {
    for _ in 0..LOOKS {
        if paces.iter().all(|pace| count <= pace.load(Ordering::SeqCst).saturating_add(LEAD)) {
            return;
        }
        sleep(rt, Duration::from_micros(20));
    }
}

// Tells the others how many commands a thread has made.
fn tell_pace(paces: &[AtomicU64], number: u32, count: u64) {
    if let Some(pace) = paces.get(number as usize) {
        pace.store(count, Ordering::SeqCst);
    }
}

// Lets the seat rest while this thread waits for the others.
fn pause<R: Wait + Clock>(
    rt: &R,
    seats: &Seats,
    paces: &[AtomicU64],
    seat: Seat,
    count: u64,
) -> Seat
    requires here { IsSeatOf seats.now seat }
    ensures here { IsSeatOf seats.now result }
{
    let resting = seat.rest(rt, seats);
    wait_for_others(rt, paces, count);
    resting.resume(rt, seats)
}

// The commands that a domain makes in its thread, and those that it makes once all threads have come to their end.
fn commands_of(script: &Script, number: u32) -> (&[Command], &[Command]) {
    let place = number as usize;
    if place >= script.sections() {
        return (&[], &[]);
    }
    let section = script.section(place);
    section.split_at(section.len().saturating_sub(kept_back(number)))
}

// Makes the commands of a domain's thread, and rests before each third. In the end it rests for good.
fn play<R: Wait + Clock>(
    rt: &R,
    alloc: Global,
    seats: &Seats,
    paces: &[AtomicU64],
    script: &Script,
    resting: Resting,
) -> Result<Player, AllocError>
    requires here { IsSeatOf seats.now resting }
    ensures here { IfOk result (λ p. IsSeatOf seats.now p.resting) }
{
    let mut told = Told {
        replies: Vec::new(alloc),
    };
    let mut seat = resting.resume(rt, seats);
    let number = seat.number();
    let mut count: u64 = 0;
    for command in commands_of(script, number).0 {
        if count % 3 == u64::from(number) % 3 {
            seat = pause(rt, seats, paces, seat, count);
        }
        make(rt, seats, &mut seat, &mut told, *command)?;
        count = count.saturating_add(1);
        tell_pace(paces, number, count);
    }
    tell_pace(paces, number, u64::MAX);
    Ok(Player {
        resting: seat.rest(rt, seats),
        told,
    })
}

// Makes the commands that were kept back.
fn end(rt: &impl Wait, seats: &Seats, script: &Script, player: Player) -> Result<Player, AllocError>
    requires here { IsSeatOf seats.now player.resting }
    ensures here { IfOk result (λ p. IsSeatOf seats.now p.resting) }
{
    let Player { resting, mut told } = player;
    let mut seat = resting.resume(rt, seats);
    for command in commands_of(script, seat.number()).1 {
        make(rt, seats, &mut seat, &mut told, *command)?;
    }
    Ok(Player {
        resting: seat.rest(rt, seats),
        told,
    })
}

// Plays all sections, each in a thread of its own.
fn play_all<R: Threads + Wait + Clock + Sync>(
    rt: &R,
    alloc: Global,
    seats: &Seats,
    paces: &[AtomicU64],
    script: &Script,
    all: Vec<Resting>,
) -> Result<Vec<Result<Player, AllocError>>, AllocError>
    requires here { AllSeatsOf seats.now all.items }
    ensures here { IfOk result (λ v. AllByRecursion (λ o. IfOk o (λ p. IsSeatOf seats.now p.resting)) v.items) }
{
    map_vec(
        rt,
        all,
        &|resting| -> Result<Player, AllocError>
            requires { IsSeatOf seats.now resting }
            ensures { IfOk result (λ p. IsSeatOf seats.entry.now p.resting) }
        { play(rt, alloc, seats, paces, script, resting) },
    )
}

// Ends all, one after another, and answers what they were told.
#[tactic(auto, using(crate::proofs::OfSeats::AllSeats::all_and_one))]
fn end_all(
    rt: &impl Wait,
    alloc: Global,
    seats: &Seats,
    script: &Script,
    played: Vec<Result<Player, AllocError>>,
) -> Result<(Vec<Resting>, Vec<Vec<Reply>>), AllocError>
    requires here { AllByRecursion (λ o. IfOk o (λ p. IsSeatOf seats.now p.resting)) played.items }
    ensures here { IfOk result (λ r. AllSeatsOf seats.now r.0.items) }
{
    let mut all = Vec::new(alloc);
    let mut told = Vec::new(alloc);
    for player in played {
        let player = end(rt, seats, script, player?)?;
        all.push(player.resting)?;
        told.push(player.told.replies)?;
    }
    Ok((all, told))
}

// Resumes all.
#[tactic(auto, using(crate::proofs::OfSeats::AllSeats::all_and_one))]
fn resume_all(
    rt: &impl Wait,
    alloc: Global,
    seats: &Seats,
    all: Vec<Resting>,
) -> Result<Vec<Seat>, AllocError>
    requires here { AllSeatsOf seats.now all.items }
    ensures here { IfOk result (λ v. AllSeatsOf seats.now v.items) }
{
    let mut back = Vec::new(alloc);
    for resting in all {
        back.push(resting.resume(rt, seats))?;
    }
    Ok(back)
}

// A heap, and its seats.
#[tactic(auto, using(crate::proofs::OfSeats::AllSeats::all_fresh))]
fn heap_of(
    rt: &impl Wait,
    alloc: Global,
    config: Config,
) -> Result<(Seats, Vec<Resting>), StartFault>
    ensures here { IfOk result (λ r. AllSeatsOf r.0 r.1.items) }
{
    Seats::make(rt, alloc, config)
}

// How many commands each thread has made: none.
fn no_paces(alloc: Global) -> Result<Vec<AtomicU64>, AllocError> {
    let mut paces = Vec::new(alloc);
    for _ in 0..DOMAINS {
        paces.push(AtomicU64::new(0))?;
    }
    Ok(paces)
}

// How many of these replies are of finalisers that gave a block back.
fn count_given_back(replies: &[Reply]) -> usize {
    replies
        .iter()
        .filter(|reply| matches!(**reply, Reply::Fin { .. }))
        .count()
}

// How many finalisers gave a block back.
fn given_back(told: &[Vec<Reply>]) -> usize {
    let mut count: usize = 0;
    for replies in told {
        count = count.saturating_add(count_given_back(replies));
    }
    count
}

#[test]
fn eight_threads_are_told_what_the_slow_heap_prints(rt: HostRuntime) -> Result<(), Fail> {
    let config = Config {
        domains: DOMAINS,
        minor_words: 4096,
        pools: 300,
        finals: 20,
        ephes: 1,
    };
    let alloc = rt.alloc();
    let script = script(alloc)?;
    let paces = no_paces(alloc)?;
    let (seats, all) = heap_of(&rt, alloc, config)?;
    let played = play_all(&rt, alloc, &seats, &paces, &script, all)?;
    let (all, told) = end_all(&rt, alloc, &seats, &script, played)?;
    let back = resume_all(&rt, alloc, &seats, all)?;
    assert!(&rt; back.len() == 8);
    let ended = seats.stop(&rt, alloc, back)?;
    ended.shows_legal();
    let output = output(alloc, &told)?;
    assert!(&rt; is_explained(alloc, &config, &script, &output)?);
    assert!(&rt; given_back(&told) == FINALISERS);
    Ok(())
}
