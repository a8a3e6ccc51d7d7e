//! How a command is made.
ghost use Rattle.std.specs.Prelude.{◌≡◌, ◌≢◌, ◌<◌, ◌+◌, ◌*◌, ◌^◌, [], vec_capacity, None, Some};
ghost use Rattle.run_turns.specs.Runs.{MaySubmit, RunView};
ghost use Rattle.run_alone.specs.Paces.{last_of, most_in_pause};
ghost use Rattle.run_session.specs.Driving.{Finishes, Makes, Owes, RestsIn};

use heap_rule::{Domain, Heap};
use model_core::command::Command;
use model_core::reply::Reply;
use run_alone::{finish, hand_in};
use run_turns::DomainRun;

// The run of a session.
#[inline(always)]
pub(crate) fn run_in(run: &Option<DomainRun>) -> &DomainRun
    requires there { run.now ≢ None }
    ensures { run.now ≡ Some result.now }
{
    let Some(run) = run else { unreachable!() };
    run
}

// Makes the command that was handed in, whatever pauses it takes.
#[inline(never)]
fn finish_on(heap: &Heap, run: &mut Option<DomainRun>, room: &mut Vec<Domain>) -> Reply
    requires owes { Owes heap.now run.old }
    requires empty { room.old.items ≡ [] }
    requires fits { 1 < vec_capacity room.old }
    ensures finishes { Finishes heap.now run.old run.new result }
    ensures room { (room.new.items ≡ []) × (vec_capacity room.new ≡ vec_capacity room.old) }
{
    let Some(owing) = run.take() else {
        unreachable!()
    };
    let (rested, reply) = finish(heap, owing, room);
    *run = Some(rested);
    reply
}

// Makes a command, and answers the reply. Mostly it is made at once; else the run goes through the pauses that it takes, three
// at most.
#[inline(always)]
pub(crate) fn perform_on(
    heap: &Heap,
    run: &mut Option<DomainRun>,
    room: &mut Vec<Domain>,
    command: Command,
) -> Reply
    requires rests { RestsIn heap.now run.old }
    requires may { (r : RunView) → run.old ≡ Some r → MaySubmit r command }
    requires few { (r : RunView) → run.old ≡ Some r → last_of heap.now.config r + 3 * most_in_pause < 2 ^ 60 }
    requires empty { room.old.items ≡ [] }
    requires fits { 1 < vec_capacity room.old }
    ensures makes { Makes heap.now run.old run.new command result }
    ensures room { (room.new.items ≡ []) × (vec_capacity room.new ≡ vec_capacity room.old) }
{
    let Some(resting) = run else { unreachable!() };
    if let Some(reply) = hand_in(heap, resting, command) {
        return reply;
    }
    finish_on(heap, run, room)
}
