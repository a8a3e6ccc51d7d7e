//! Runs a script, and writes a report of it.
ghost use Rattle.std.specs.Prelude.{◌≡◌, ◌<◌, ◌≤◌, ℕ, [], length, slice_get, vec_capacity, Option, Some};
ghost use Rattle.std.specs.Io.KnownBytes.{Appends};
ghost use Rattle.heap_rule.specs.Ending.{EndedHeap};
ghost use Rattle.heap_rule.specs.Token.{IsIn};
ghost use Rattle.run_turns.specs.Runs.{RunView};
ghost use Rattle.text_ends.specs.Faults.{Rose};
ghost use Rattle.model_traces.specs.Spawns.Printed.{spawning_output};
ghost use Rattle.text_script.specs.Spawned.Reads.{IsRead};
ghost use Rattle.camlheap_run.specs.Reading.{IsSpelled, IsSpelledScript};
ghost use Rattle.camlheap_run.specs.Run.{IsSpawningRunOf};
ghost use Rattle.camlheap_run.specs.Running.{AreRunSizes, DrivesToEnd};
ghost use Rattle.text_ends.specs.Writing.{AppendsFront};
ghost use Rattle.camlheap_run.specs.Writing.{text_of};
ghost use Rattle.camlheap_run.specs.Outcome.{WritesRun, WritesFrontOfRun, WritesRunBy, WritesFrontOfRunBy, WritesScriptRun, WritesFrontOfScriptRun, IsWriteFault, IsRunAnswer};

use crate::Status;
use crate::run::begin::{Begun, begin, config_of};
use crate::run::end::end;
use crate::run::spawns::begin_sections;
use crate::write::report::{Report, write_report};
use crate::write::tellers::{Tellers, runs_of, tellers_of, write_tellers};
use model_core::state::Sizes;
use run_threads::drive;
use std::alloc::{AllocError, Global};
use std::sync::Wait;
use std::thread::Threads;
use text_ends::{Failed, Gate, Sink};
use text_script::Script;

// Drives the runs of a heap to their ends, writes the report line by line, and ends the heap. No memory is taken.
fn run_alone<R: Threads + Wait + Sync, K: Sink, G: Gate + Sync>(
    rt: &R,
    begun: Begun,
    report: Report,
    out: &mut K,
    gate: &G,
) -> Status
    requires here { (i : ℕ) (r : RunView) → slice_get begun.runs.items i ≡ Some r → IsIn r.token begun.heap }
    requires some { 0 < length begun.runs.items }
    requires empty { begun.room.items ≡ [] }
    requires room { length begun.runs.items ≤ vec_capacity begun.room }
    ensures later { K.faults out.old ≤ K.faults out.new }
    ensures done { (ended : Option EndedHeap) → result ≡ Status.Done ended → DrivesToEnd begun report ended (Appends (K.written out.old) (K.written out.new)) }
    ensures cut { (ended : Option EndedHeap) → result ≡ Status.WriteFault ended → DrivesToEnd begun report ended (AppendsFront (K.written out.old) (K.written out.new)) }
    ensures fault { (ended : Option EndedHeap) → result ≡ Status.WriteFault ended → Rose (K.faults out.old) (K.faults out.new) }
    ensures failed { K.faults out.old < K.faults out.new → IsWriteFault result }
    ensures enough { result ≡ Status.Memory → ⊥ }
    ensures answers { IsRunAnswer result }
{
    let Begun { heap, runs, room } = begun;
    let runs = drive(rt, &heap, runs, gate);
    let written = write_report(out, report, &runs);
    let ended = Some(end(heap, runs, room));
    match written {
        Ok(()) => Status::Done { ended },
        Err(Failed) => Status::WriteFault { ended },
    }
}

// Drives the runs of a heap to their ends, in threads that each print what the report has of a run, writes that, and ends the
// heap. The room for the report is taken before the first command.
fn run_together<R: Threads + Wait + Sync, K: Sink, G: Gate + Sync>(
    rt: &R,
    alloc: Global,
    begun: Begun,
    report: Report,
    out: &mut K,
    gate: &G,
) -> Status
    requires here { (i : ℕ) (r : RunView) → slice_get begun.runs.items i ≡ Some r → IsIn r.token begun.heap }
    requires some { 0 < length begun.runs.items }
    requires empty { begun.room.items ≡ [] }
    requires room { length begun.runs.items ≤ vec_capacity begun.room }
    ensures later { K.faults out.old ≤ K.faults out.new }
    ensures done { (ended : Option EndedHeap) → result ≡ Status.Done ended → DrivesToEnd begun report ended (Appends (K.written out.old) (K.written out.new)) }
    ensures cut { (ended : Option EndedHeap) → result ≡ Status.WriteFault ended → DrivesToEnd begun report ended (AppendsFront (K.written out.old) (K.written out.new)) }
    ensures fault { (ended : Option EndedHeap) → result ≡ Status.WriteFault ended → Rose (K.faults out.old) (K.faults out.new) }
    ensures failed { K.faults out.old < K.faults out.new → IsWriteFault result }
    ensures quiet { result ≡ Status.Memory → out.new ≡ out.old }
    ensures answers { IsRunAnswer result }
{
    let Begun { heap, runs, room } = begun;
    let Tellers {
        tellers,
        room: runs_room,
    } = match tellers_of(alloc, report, runs) {
        Ok(tellers) => tellers,
        Err(AllocError) => return Status::Memory,
    };
    let tellers = drive(rt, &heap, tellers, gate);
    let written = write_tellers(out, &tellers);
    let ended = Some(end(heap, runs_of(tellers, runs_room), room));
    match written {
        Ok(()) => Status::Done { ended },
        Err(Failed) => Status::WriteFault { ended },
    }
}

// Drives the runs of a heap to their ends, writes the report, and ends the heap. Where there are several runs, the thread of each
// prints.
fn run_begun<R: Threads + Wait + Sync, K: Sink, G: Gate + Sync>(
    rt: &R,
    alloc: Global,
    begun: Begun,
    report: Report,
    out: &mut K,
    gate: &G,
) -> Status
    requires here { (i : ℕ) (r : RunView) → slice_get begun.runs.items i ≡ Some r → IsIn r.token begun.heap }
    requires some { 0 < length begun.runs.items }
    requires empty { begun.room.items ≡ [] }
    requires room { length begun.runs.items ≤ vec_capacity begun.room }
    ensures later { K.faults out.old ≤ K.faults out.new }
    ensures done { (ended : Option EndedHeap) → result ≡ Status.Done ended → DrivesToEnd begun report ended (Appends (K.written out.old) (K.written out.new)) }
    ensures cut { (ended : Option EndedHeap) → result ≡ Status.WriteFault ended → DrivesToEnd begun report ended (AppendsFront (K.written out.old) (K.written out.new)) }
    ensures fault { (ended : Option EndedHeap) → result ≡ Status.WriteFault ended → Rose (K.faults out.old) (K.faults out.new) }
    ensures failed { K.faults out.old < K.faults out.new → IsWriteFault result }
    ensures quiet { result ≡ Status.Memory → out.new ≡ out.old }
    ensures answers { IsRunAnswer result }
{
    if begun.runs.len() == 1 {
        run_alone(rt, begun, report, out, gate)
    } else {
        run_together(rt, alloc, begun, report, out, gate)
    }
}

// Runs the sections of a script on one heap, in threads, and then writes the report. All memory is taken before the first
// command.
pub(crate) fn run<R: Threads + Wait + Sync, K: Sink, G: Gate + Sync>(
    rt: &R,
    alloc: Global,
    sizes: &Sizes,
    script: Script,
    report: Report,
    out: &mut K,
    gate: &G,
) -> Status
    requires limits { AreRunSizes sizes.now }
    requires script { IsSpelled sizes.now.domains script }
    ensures later { K.faults out.old ≤ K.faults out.new }
    ensures done { (ended : Option EndedHeap) → result ≡ Status.Done ended → WritesRun (text_of report) sizes.now script.sections ended (K.written out.old) (K.written out.new) }
    ensures cut { (ended : Option EndedHeap) → result ≡ Status.WriteFault ended → WritesFrontOfRun (text_of report) sizes.now script.sections ended (K.written out.old) (K.written out.new) }
    ensures fault { (ended : Option EndedHeap) → result ≡ Status.WriteFault ended → Rose (K.faults out.old) (K.faults out.new) }
    ensures failed { K.faults out.old < K.faults out.new → IsWriteFault result }
    ensures quiet { result ≡ Status.Memory → out.new ≡ out.old }
    ensures answers { IsRunAnswer result }
{
    match begin(alloc, config_of(sizes, &script), script) {
        Ok(begun) => run_begun(rt, alloc, begun, report, out, gate),
        Err(AllocError) => Status::Memory,
    }
}

// The same with the sections of a script with spawns, and their replies.
fn run_sections<R: Threads + Wait + Sync, K: Sink, G: Gate + Sync>(
    rt: &R,
    alloc: Global,
    sizes: &Sizes,
    script: Script,
    out: &mut K,
    gate: &G,
) -> Status
    requires limits { AreRunSizes sizes.now }
    requires script { IsRead sizes.now.domains script }
    ensures later { K.faults out.old ≤ K.faults out.new }
    ensures done { (ended : Option EndedHeap) → result ≡ Status.Done ended → WritesRunBy IsSpawningRunOf spawning_output sizes.now script.sections ended (K.written out.old) (K.written out.new) }
    ensures cut { (ended : Option EndedHeap) → result ≡ Status.WriteFault ended → WritesFrontOfRunBy IsSpawningRunOf spawning_output sizes.now script.sections ended (K.written out.old) (K.written out.new) }
    ensures fault { (ended : Option EndedHeap) → result ≡ Status.WriteFault ended → Rose (K.faults out.old) (K.faults out.new) }
    ensures failed { K.faults out.old < K.faults out.new → IsWriteFault result }
    ensures quiet { result ≡ Status.Memory → out.new ≡ out.old }
    ensures answers { IsRunAnswer result }
{
    match begin_sections(alloc, config_of(sizes, &script), script) {
        Ok(begun) => run_begun(rt, alloc, begun, Report::Replies, out, gate),
        Err(AllocError) => Status::Memory,
    }
}

// Runs a script of any version, and writes its replies.
pub(crate) fn run_script<R: Threads + Wait + Sync, K: Sink, G: Gate + Sync>(
    rt: &R,
    alloc: Global,
    sizes: &Sizes,
    script: Script,
    out: &mut K,
    gate: &G,
) -> Status
    requires limits { AreRunSizes sizes.now }
    requires script { IsSpelledScript sizes.now.domains script }
    ensures later { K.faults out.old ≤ K.faults out.new }
    ensures done { (ended : Option EndedHeap) → result ≡ Status.Done ended → WritesScriptRun sizes.now script ended (K.written out.old) (K.written out.new) }
    ensures cut { (ended : Option EndedHeap) → result ≡ Status.WriteFault ended → WritesFrontOfScriptRun sizes.now script ended (K.written out.old) (K.written out.new) }
    ensures fault { (ended : Option EndedHeap) → result ≡ Status.WriteFault ended → Rose (K.faults out.old) (K.faults out.new) }
    ensures failed { K.faults out.old < K.faults out.new → IsWriteFault result }
    ensures quiet { result ≡ Status.Memory → out.new ≡ out.old }
    ensures answers { IsRunAnswer result }
{
    if script.version() == 3 {
        run_sections(rt, alloc, sizes, script, out, gate)
    } else {
        run(rt, alloc, sizes, script, Report::Replies, out, gate)
    }
}
