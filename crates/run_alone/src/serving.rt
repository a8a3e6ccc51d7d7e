//! A command of a heap's only domain.
ghost use Rattle.std.specs.Prelude.{◌≡◌, ◌≢◌, ◌<◌, ◌≤◌, ◌+◌, ◌*◌, ◌^◌, [], length, vec_capacity, None};
ghost use Rattle.run_alone.specs.Lone.{IsLone, ServesOn, Tells, Wants};
ghost use Rattle.run_alone.specs.Paces.{IsPaced, last_of, most_in_pause};

use crate::pausing::{come_back, pause};
use crate::trying::{try_on, wants};
use crate::wishing::look_first;
use heap_rule::{Domain, Heap};
use run_turns::DomainRun;

// The pause for which the domain has asked for its next command: it arrives, goes through the phases, and runs again, or
// the command is answered in it.
fn serve(heap: &Heap, run: DomainRun, room: &mut Vec<Domain>, complete: bool) -> DomainRun
    requires lone { IsLone heap.now run }
    requires runs { run.left ≡ None }
    requires wants { Wants run }
    requires few { last_of heap.now.config run + most_in_pause < 2 ^ 60 }
    requires empty { room.old.items ≡ [] }
    requires fits { 1 < vec_capacity room.old }
    ensures serves { ServesOn heap.now complete run result }
    ensures room { (room.new.items ≡ []) × (vec_capacity room.new ≡ vec_capacity room.old) }
{
    let _limits = heap.config();
    let mut run = run;
    run.look_at_queue(heap);
    run.halt(heap);
    run.shows_faithful();
    pause(heap, run, room, complete)
}

// The second and last pause of an allocation, behind which it is made or answered `full`.
fn serve_last(heap: &Heap, run: DomainRun, room: &mut Vec<Domain>) -> DomainRun
    requires lone { IsLone heap.now run }
    requires runs { run.left ≡ None }
    requires wants { Wants run }
    requires some { run.next < length run.commands }
    requires few { last_of heap.now.config run + most_in_pause < 2 ^ 60 }
    requires empty { room.old.items ≡ [] }
    requires fits { 1 < vec_capacity room.old }
    ensures lone { IsLone heap.now result }
    ensures commands { result.commands ≡ run.commands }
    ensures tells { Tells heap.now run result }
    ensures made { result.next ≢ run.next }
    ensures spends { last_of heap.now.config result ≤ last_of heap.now.config run + most_in_pause }
    ensures paced { IsPaced heap.now.config result }
    ensures room { (room.new.items ≡ []) × (vec_capacity room.new ≡ vec_capacity room.old) }
{
    let next = run.next();
    let mut run = serve(heap, run, room, true);
    if run.next() != next {
        return run;
    }
    try_on(heap, &mut run);
    run
}

// The first pause, which every command but an allocation is made or answered behind.
fn serve_first(heap: &Heap, run: DomainRun, room: &mut Vec<Domain>) -> DomainRun
    requires lone { IsLone heap.now run }
    requires runs { run.left ≡ None }
    requires wants { Wants run }
    requires some { run.next < length run.commands }
    requires few { last_of heap.now.config run + 2 * most_in_pause < 2 ^ 60 }
    requires empty { room.old.items ≡ [] }
    requires fits { 1 < vec_capacity room.old }
    ensures lone { IsLone heap.now result }
    ensures commands { result.commands ≡ run.commands }
    ensures tells { Tells heap.now run result }
    ensures made { result.next ≢ run.next }
    ensures spends { last_of heap.now.config result ≤ last_of heap.now.config run + 2 * most_in_pause }
    ensures paced { IsPaced heap.now.config result }
    ensures room { (room.new.items ≡ []) × (vec_capacity room.new ≡ vec_capacity room.old) }
{
    let next = run.next();
    let complete = run.is_at_full_major();
    let mut run = serve(heap, run, room, complete);
    if run.next() != next {
        return run;
    }
    try_on(heap, &mut run);
    if run.next() != next {
        return run;
    }
    serve_last(heap, run, room)
}

// Makes the next command. At most two pauses come for it: one, or two for an allocation that is refused behind the first. All
// finalisers that wait run before it, and those that the pauses queue.
fn make_on(heap: &Heap, run: DomainRun, room: &mut Vec<Domain>) -> DomainRun
    requires lone { IsLone heap.now run }
    requires runs { run.left ≡ None }
    requires some { run.next < length run.commands }
    requires few { last_of heap.now.config run + 2 * most_in_pause < 2 ^ 60 }
    requires empty { room.old.items ≡ [] }
    requires fits { 1 < vec_capacity room.old }
    ensures lone { IsLone heap.now result }
    ensures commands { result.commands ≡ run.commands }
    ensures tells { Tells heap.now run result }
    ensures made { result.next ≢ run.next }
    ensures spends { last_of heap.now.config result ≤ last_of heap.now.config run + 2 * most_in_pause }
    ensures paced { IsPaced heap.now.config result }
    ensures room { (room.new.items ≡ []) × (vec_capacity room.new ≡ vec_capacity room.old) }
{
    let next = run.next();
    let mut run = run;
    try_on(heap, &mut run);
    if run.next() != next {
        return run;
    }
    serve_first(heap, run, room)
}

/// The same of a domain that has asked for no pause. A wish that was left over is served first, as that for the end of a
/// cycle.
pub fn make(heap: &Heap, run: DomainRun, room: &mut Vec<Domain>) -> DomainRun
    requires lone { IsLone heap.now run }
    requires runs { run.left ≡ None }
    requires unasked { run.asked ≡ None }
    requires some { run.next < length run.commands }
    requires few { last_of heap.now.config run + 3 * most_in_pause < 2 ^ 60 }
    requires empty { room.old.items ≡ [] }
    requires fits { 1 < vec_capacity room.old }
    ensures lone { IsLone heap.now result }
    ensures commands { result.commands ≡ run.commands }
    ensures tells { Tells heap.now run result }
    ensures made { result.next ≢ run.next }
    ensures spends { last_of heap.now.config result ≤ last_of heap.now.config run + 3 * most_in_pause }
    ensures paced { IsPaced heap.now.config result }
    ensures room { (room.new.items ≡ []) × (vec_capacity room.new ≡ vec_capacity room.old) }
{
    let next = run.next();
    let mut run = run;
    look_first(heap, &mut run);
    if run.next() != next {
        return run;
    }
    if wants(&run) {
        return serve_first(heap, run, room);
    }
    let run = come_back(heap, run, room);
    make_on(heap, run, room)
}
