//! A pause of a heap's only domain.
ghost use Rattle.std.specs.Prelude.{◌≡◌, ◌≢◌, ◌<◌, ◌^◌, ◌⊎◌, [], length, vec_capacity, None};
ghost use Rattle.run_alone.specs.Lone.{ComesBack, IsLone, IsPausing, decides};
ghost use Rattle.run_alone.specs.Paces.{last_of};

use crate::passing::pass_alone;
use gc_pause::phases::Decider;
use heap_rule::{Domain, Heap};
use run_turns::DomainRun;

// Who decides in a pause.
fn decides(complete: bool) -> Decider
    ensures { result ≡ decides complete }
{
    if complete {
        Decider::Caller { complete: true }
    } else {
        Decider::Wishes
    }
}

// A pause, from where the domain has arrived until it runs again, or until the reply of its next command has come. Each
// step brings it nearer to its end.
pub(crate) fn pause(
    heap: &Heap,
    run: DomainRun,
    room: &mut Vec<Domain>,
    complete: bool,
) -> DomainRun
    requires begun { IsPausing heap.now complete run run }
    requires few { last_of heap.now.config run < 2 ^ 60 }
    requires empty { room.old.items ≡ [] }
    requires fits { 1 < vec_capacity room.old }
    ensures paused { IsPausing heap.now complete run result }
    ensures ends { (result.next ≢ run.next) ⊎ (result.left ≡ None) }
    ensures room { (room.new.items ≡ []) × (vec_capacity room.new ≡ vec_capacity room.old) }
{
    let next = run.next();
    let decider = decides(complete);
    let mut run = run;
    'passes: loop {
        if run.running() {
            return run;
        }
        if run.next() != next {
            return run;
        }
        run = pass_alone(heap, run, room, decider);
        run.shows_faithful();
    }
}

/// Takes a domain that may have arrived back to where it runs. It has asked for no pause, or has no command to make.
pub fn come_back(heap: &Heap, run: DomainRun, room: &mut Vec<Domain>) -> DomainRun
    requires lone { IsLone heap.now run }
    requires calm { (run.asked ≡ None) ⊎ (run.next ≡ length run.commands) }
    requires few { last_of heap.now.config run < 2 ^ 60 }
    requires empty { room.old.items ≡ [] }
    requires fits { 1 < vec_capacity room.old }
    ensures back { ComesBack heap.now run result }
    ensures room { (room.new.items ≡ []) × (vec_capacity room.new ≡ vec_capacity room.old) }
{
    pause(heap, run, room, false)
}
