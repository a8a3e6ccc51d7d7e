//! Runs the script, replays the script of a schedule, or runs the text of a table that a source gives.
ghost use Rattle.std.specs.Prelude.{◌≡◌, ◌<◌, ◌≤◌, ℕ, List, Option};
ghost use Rattle.text_script.specs.Script.{Scripted};
ghost use Rattle.heap_rule.specs.Ending.{EndedHeap};
ghost use Rattle.text_script.specs.declared.fault.ScriptFault.{ScriptFault};
ghost use Rattle.text_script.specs.declared.schedule.text.replay.ReplayFault as replay_fault;
ghost use Rattle.text_script.specs.declared.schedule.text.replay.ReplayFault.TheVariants.{NotReplayable as NotReplayableOf, Schedule as ScheduleOf, Script as ScriptOf};
ghost use Rattle.text_script.specs.Schedule.Text.Replays.{HasFault, Replayed};
ghost use Rattle.text_ends.specs.Faults.{Rose};
ghost use Rattle.camlheap_run.specs.Reading.{IsFirst, IsTableText, ReadsFault, ReadsFirstFault, ReadsReplayFault, Tells, TellsFault, TellsFirst, TellsReplay, TellsReplayFault, TellsScript, first_table_fault};
ghost use Rattle.camlheap_run.specs.Running.{AreRunSizes};
ghost use Rattle.camlheap_run.specs.Replaying.{MayReplay, ReplaysToEnd, StopsReplaying, fault_status};
ghost use Rattle.camlheap_run.specs.Tables.{MayHoldTable, TableRunsToEnd, TableStopsWriting};
ghost use Rattle.camlheap_run.specs.Outcome.{read_status, RunsToEnd, StopsWriting, IsReplayAnswer, IsSourceAnswer, IsSilent, IsWriteFault, IsEither, IsDoneOrMemory};

use crate::Status;
use crate::read::texts::{NoReplay, NoScript, replay_of, script_of, sections_of, table_of};
use crate::replay::run_replay;
use crate::run::script::run_script;
use crate::table::alone::run_table;
use crate::table::shared::run_together;
use model_core::state::Sizes;
use std::alloc::Global;
use std::sync::Wait;
use std::thread::Threads;
use text_ends::{Gate, Sink, Source};
use text_script::schedule::text::ReplayFault;

// Reads a script, runs it, and writes its replies.
pub(crate) fn run_source<R: Threads + Wait + Sync, S: Source, K: Sink, G: Gate + Sync>(
    rt: &R,
    alloc: Global,
    sizes: &Sizes,
    src: &mut S,
    out: &mut K,
    gate: &G,
) -> Status
    requires { AreRunSizes sizes.now }
    ensures done { (ended : Option EndedHeap) → result ≡ Status.Done ended → RunsToEnd sizes.now ended (S.left src.old) (S.left src.new) (K.written out.old) (K.written out.new) }
    ensures cut { (ended : Option EndedHeap) → result ≡ Status.WriteFault ended → StopsWriting sizes.now ended (S.left src.old) (S.left src.new) (K.written out.old) (K.written out.new) }
    ensures quiet { IsSilent result → out.new ≡ out.old }
    ensures answers { IsSourceAnswer result }
    ensures script { (f : ScriptFault) → result ≡ Status.Script f → ReadsFault sizes.now.domains (S.left src.old) (S.left src.new) f }
    ensures reads { S.faults src.old ≤ S.faults src.new }
    ensures writes { K.faults out.old ≤ K.faults out.new }
    ensures read_fault { result ≡ Status.ReadFault → Rose (S.faults src.old) (S.faults src.new) }
    ensures write_fault { (ended : Option EndedHeap) → result ≡ Status.WriteFault ended → Rose (K.faults out.old) (K.faults out.new) }
    ensures read_failed { S.faults src.old < S.faults src.new → result ≡ Status.ReadFault }
    ensures write_failed { K.faults out.old < K.faults out.new → IsWriteFault result }
    ensures complete { (s : Scripted) → TellsScript sizes.now.domains (S.left src.old) s
        → ¬ (Rose (S.faults src.old) (S.faults src.new)) → ¬ (Rose (K.faults out.old) (K.faults out.new))
        → IsDoneOrMemory result }
    ensures refused { (f : ScriptFault) → TellsFault sizes.now.domains (S.left src.old) f
        → ¬ (Rose (S.faults src.old) (S.faults src.new))
        → IsEither result (Status.Script f) Status.Memory }
{
    match script_of(rt, alloc, sizes.domains, src) {
        Ok(script) => run_script(rt, alloc, sizes, script, out, gate),
        Err(NoScript::ReadFault) => Status::ReadFault,
        Err(NoScript::Refused(fault)) => Status::Script(fault),
        Err(NoScript::Memory) => Status::Memory,
    }
}

// What a fault of a replay's text comes to.
fn refused(fault: ReplayFault) -> Status
    ensures { result ≡ fault_status fault }
{
    match fault {
        ReplayFault::Schedule { line } => Status::Schedule { line },
        ReplayFault::Script(fault) => Status::Script(fault),
        ReplayFault::NotReplayable { why } => Status::NotReplayable { why },
        ReplayFault::Memory => Status::Memory,
    }
}

// Reads a schedule and a script, runs the script under the schedule, and writes its replies.
pub(crate) fn run_replay_source<S: Source, K: Sink>(
    alloc: Global,
    sizes: &Sizes,
    src: &mut S,
    out: &mut K,
) -> Status
    requires { MayReplay sizes.now }
    ensures done { (ended : Option EndedHeap) → result ≡ Status.Done ended → ReplaysToEnd sizes.now ended (S.left src.old) (S.left src.new) (K.written out.old) (K.written out.new) }
    ensures cut { (ended : Option EndedHeap) → result ≡ Status.WriteFault ended → StopsReplaying sizes.now ended (S.left src.old) (S.left src.new) (K.written out.old) (K.written out.new) }
    ensures quiet { IsSilent result → out.new ≡ out.old }
    ensures answers { IsReplayAnswer result }
    ensures script { (f : ScriptFault) → result ≡ Status.Script f → ReadsFirstFault (λ bytes fault. HasFault sizes.now.domains sizes.now.pools bytes (ScriptOf fault)) (S.left src.old) (S.left src.new) f }
    ensures schedule { (l : ℕ) → result ≡ Status.Schedule l → ReadsReplayFault sizes.now (S.left src.old) (S.left src.new) (ScheduleOf l) }
    ensures not_replayable { (w : ℕ) → result ≡ Status.NotReplayable w → ReadsReplayFault sizes.now (S.left src.old) (S.left src.new) (NotReplayableOf w) }
    ensures reads { S.faults src.old ≤ S.faults src.new }
    ensures writes { K.faults out.old ≤ K.faults out.new }
    ensures read_fault { result ≡ Status.ReadFault → Rose (S.faults src.old) (S.faults src.new) }
    ensures write_fault { (ended : Option EndedHeap) → result ≡ Status.WriteFault ended → Rose (K.faults out.old) (K.faults out.new) }
    ensures read_failed { S.faults src.old < S.faults src.new → result ≡ Status.ReadFault }
    ensures write_failed { K.faults out.old < K.faults out.new → IsWriteFault result }
    ensures complete { (r : Replayed) → TellsReplay sizes.now (S.left src.old) r
        → ¬ (Rose (S.faults src.old) (S.faults src.new)) → ¬ (Rose (K.faults out.old) (K.faults out.new))
        → IsDoneOrMemory result }
    ensures refused { (f : replay_fault.ReplayFault) → TellsReplayFault sizes.now (S.left src.old) f
        → ¬ (Rose (S.faults src.old) (S.faults src.new))
        → IsEither result (fault_status f) Status.Memory }
{
    match replay_of(alloc, sizes, src) {
        Ok(replay) => run_replay(alloc, sizes, replay, out),
        Err(NoReplay::ReadFault) => Status::ReadFault,
        Err(NoReplay::Refused(fault)) => refused(fault),
        Err(NoReplay::Memory) => Status::Memory,
    }
}

// What it comes to that a source gave no text.
fn nothing_read(why: NoScript) -> Status
    ensures { result ≡ read_status why }
{
    match why {
        NoScript::ReadFault => Status::ReadFault,
        NoScript::Refused(fault) => Status::Script(fault),
        NoScript::Memory => Status::Memory,
    }
}

// Reads the text of a table, runs it, and writes its replies. Of several domains each runs its section.
pub(crate) fn run_table_source<R: Threads + Wait + Sync, S: Source, K: Sink>(
    rt: &R,
    alloc: Global,
    sizes: &Sizes,
    src: &mut S,
    out: &mut K,
) -> Status
    requires { MayHoldTable sizes.now }
    ensures done { (ended : Option EndedHeap) → result ≡ Status.Done ended → TableRunsToEnd sizes.now ended (S.left src.old) (S.left src.new) (K.written out.old) (K.written out.new) }
    ensures cut { (ended : Option EndedHeap) → result ≡ Status.WriteFault ended → TableStopsWriting sizes.now ended (S.left src.old) (S.left src.new) (K.written out.old) (K.written out.new) }
    ensures quiet { IsSilent result → out.new ≡ out.old }
    ensures answers { IsSourceAnswer result }
    ensures script { (f : ScriptFault) → result ≡ Status.Script f → ReadsFirstFault (IsFirst (first_table_fault sizes.now.domains)) (S.left src.old) (S.left src.new) f }
    ensures reads { S.faults src.old ≤ S.faults src.new }
    ensures writes { K.faults out.old ≤ K.faults out.new }
    ensures read_fault { result ≡ Status.ReadFault → Rose (S.faults src.old) (S.faults src.new) }
    ensures write_fault { (ended : Option EndedHeap) → result ≡ Status.WriteFault ended → Rose (K.faults out.old) (K.faults out.new) }
    ensures read_failed { S.faults src.old < S.faults src.new → result ≡ Status.ReadFault }
    ensures write_failed { K.faults out.old < K.faults out.new → IsWriteFault result }
    ensures complete { Tells (IsTableText sizes.now.domains) (S.left src.old)
        → ¬ (Rose (S.faults src.old) (S.faults src.new)) → ¬ (Rose (K.faults out.old) (K.faults out.new))
        → IsDoneOrMemory result }
    ensures refused { (f : ScriptFault) → TellsFirst (IsFirst (first_table_fault sizes.now.domains)) (S.left src.old) f
        → ¬ (Rose (S.faults src.old) (S.faults src.new))
        → IsEither result (Status.Script f) Status.Memory }
{
    if sizes.domains == 1 {
        match table_of(alloc, src) {
            Ok(text) => run_table(rt, alloc, sizes, &text, out),
            Err(why) => nothing_read(why),
        }
    } else {
        match sections_of(alloc, sizes.domains, src) {
            Ok(text) => run_together(rt, alloc, sizes, text, out),
            Err(why) => nothing_read(why),
        }
    }
}
