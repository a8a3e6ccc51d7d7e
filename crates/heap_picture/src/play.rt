//! Plays the commands of a script, with collections and finalisers in between.
ghost use Rattle.std.specs.Prelude.{◌≡◌, ◌∷◌, [], false, length, OnOk};
ghost use Rattle.model_core.specs.Domains.{domain_at};
ghost use Rattle.model_core.specs.Entries.{next};
ghost use Rattle.heap_picture.specs.Steps.{collected, with_queue_run, asked, played_one, played};
ghost use Rattle.heap_picture.specs.Plays.{Plays};

use crate::collect::{collect, follow};
use judge_plain::SlowHeap;
use model_core::command::Command;
use model_core::entry::Entry;
use model_core::reply::ApplyFault;
use std::alloc::Global;

// How many finalisers wait in the queue of domain 0.
fn count_queued(heap: &SlowHeap) -> usize
    ensures { result ≡ length (domain_at heap.now 0).queue }
{
    let state = heap.state();
    let domains = &state.domains;
    match domains.items.first() {
        Some(domain) => {
            let queue = &domain.queue;
            queue.items.len()
        }
        None => 0,
    }
}

// Runs all queued finalisers.
fn run_queued(heap: &mut SlowHeap) -> Result<(), ApplyFault>
    ensures plays { OnOk result (Plays heap.old heap.new []) }
    ensures state { OnOk result (heap.new ≡ with_queue_run heap.old) }
{
    for _i in 0..count_queued(heap) {
        follow(heap, &Entry::Ran { domain: 0 })?;
    }
    Ok(())
}

// The entry of a command.
fn make(heap: &mut SlowHeap, command: Command) -> Result<(), ApplyFault>
    ensures plays { OnOk result (Plays heap.old heap.new (command ∷ [])) }
    ensures state { OnOk result (heap.new ≡ next heap.old (Entry.Command 0 command false)) }
{
    let entry = Entry::Command {
        domain: 0,
        command,
        full: false,
    };
    follow(heap, &entry)
}

// A complete collection that no `full_major` asked for, and the finalisers that it queued.
fn major(alloc: Global, heap: &mut SlowHeap) -> Result<(), ApplyFault>
    ensures plays { OnOk result (Plays heap.old heap.new []) }
    ensures state { OnOk result (heap.new ≡ with_queue_run (next (collected heap.old) Entry.Done)) }
{
    collect(alloc, heap)?;
    follow(heap, &Entry::Done)?;
    run_queued(heap)
}

// A complete collection in which `full_major` is answered.
fn full_major(alloc: Global, heap: &mut SlowHeap) -> Result<(), ApplyFault>
    ensures plays { OnOk result (Plays heap.old heap.new (Command.FullMajor ∷ [])) }
    ensures state { OnOk result (heap.new ≡ asked heap.old Command.FullMajor) }
{
    collect(alloc, heap)?;
    make(heap, Command::FullMajor)?;
    follow(heap, &Entry::Done)
}

// A command, with the collection that it asks for.
fn make_after_asking(alloc: Global, heap: &mut SlowHeap, command: Command) -> Result<(), ApplyFault>
    ensures plays { OnOk result (Plays heap.old heap.new (command ∷ [])) }
    ensures state { OnOk result (heap.new ≡ asked heap.old command) }
{
    match command {
        Command::FullMajor => full_major(alloc, heap),
        Command::Major => {
            major(alloc, heap)?;
            make(heap, command)
        }
        _ => make(heap, command),
    }
}

// A command, after all queued finalisers.
fn play_command(alloc: Global, heap: &mut SlowHeap, command: Command) -> Result<(), ApplyFault>
    ensures plays { OnOk result (Plays heap.old heap.new (command ∷ [])) }
    ensures state { OnOk result (heap.new ≡ played_one heap.old command) }
{
    run_queued(heap)?;
    make_after_asking(alloc, heap, command)
}

/// Plays commands on a heap, as domain 0. Before each, the queued finalisers run; `major` and `full_major` make a
/// complete collection, which queues all finalisers that it may. Those that the last command queued stay in the queue.
pub(crate) fn play(
    alloc: Global,
    heap: &mut SlowHeap,
    commands: &[Command],
) -> Result<(), ApplyFault>
    ensures plays { OnOk result (Plays heap.old heap.new commands.now) }
    ensures state { OnOk result (heap.new ≡ played heap.old commands.now) }
{
    for command in commands {
        play_command(alloc, heap, *command)?;
    }
    Ok(())
}
