//! Reading the text of a replay.
ghost use Rattle.std.specs.Prelude.{◌≤◌, ℕ, drop, length, IfOk, IfErr, Ok, Err};
ghost use Rattle.text_script.specs.Spelling.{Spells as SpellsScript};
ghost use Rattle.text_script.specs.declared.version.Version.TheVariants.{Three};
ghost use Rattle.text_script.specs.Faults.{first_fault};
ghost use Rattle.text_script.specs.Schedule.Text.Spelling.{Spells};
ghost use Rattle.text_script.specs.Schedule.Text.Replays.{HasFault, IsFirstUnlessMemory, IsScriptFault, IsUnlessNoMemory, Replayed, SpellsReplay};
ghost use Rattle.text_script.specs.declared.schedule.text.replay.ReplayFault.{ReplayFault as declared_replay};

use crate::schedule::text::allowed::{NotReplayable, replayable};
use crate::schedule::text::fault::ScheduleFault;
use crate::schedule::text::reading::read_schedule;
use crate::schedule::text::schedule::Schedule;
use crate::{Script, ScriptFault, Version, read_script};
use std::alloc::Global;
use std::marker::Model;

/// What a replay runs.
#[derive(Drop)]
pub struct Replay {
    /// Which domain takes its turn when, and when a complete collection is made.
    pub schedule: Schedule,
    /// The commands of each domain.
    pub script: Script,
}

impl Model for Replay {
    ghost use Rattle.text_script.specs.Schedule.Text.Replays.{Replayed};

    ghost Value = { Replayed };

    ghost view = { λ r. record { items = r.schedule; script = r.script } };
}

/// Why there is no replay: the first fault of its text, or want of memory.
#[derive(Clone, Copy, Debug, PartialEq, Eq)]
pub enum ReplayFault {
    /// The line, counted from 1, is the first that isn't one of a schedule.
    Schedule { line: u32 },
    /// There are too many bytes, or the script behind the schedule has this first fault. Its lines are counted
    /// from 1 again.
    Script(ScriptFault),
    /// 3: the script is of version 3. 1: it isn't, and has a `major`. 2: it has none, and makes so many blocks that the pools
    /// might run short.
    NotReplayable { why: u32 },
    /// Memory ran out.
    Memory,
}

/// The greatest count of bytes of a replay's text.
const MAX_BYTES: usize = 16_777_216;

// The schedule in front, and the place behind it.
fn schedule_of(alloc: Global, domains: u32, bytes: &[u8]) -> Result<(Schedule, usize), ReplayFault>
    requires domains { (1 ≤ domains) × (domains ≤ 8) }
    requires few { length bytes.now ≤ 16777216 }
    ensures found { IfOk result (λ r. Spells domains r.0 r.1 bytes.now) }
    ensures fault { (pools : ℕ) → IfErr result (IsFirstUnlessMemory domains pools bytes.now) }
{
    match read_schedule(alloc, domains, bytes) {
        Ok(read) => Ok(read),
        Err(ScheduleFault::Line { line }) => Err(ReplayFault::Schedule { line }),
        Err(ScheduleFault::Memory) => Err(ReplayFault::Memory),
    }
}

// The script behind a schedule.
fn script_of(alloc: Global, domains: u32, bytes: &[u8], place: usize) -> Result<Script, ReplayFault>
    requires inside { place ≤ length bytes.now }
    ensures found { IfOk result (λ s. SpellsScript Three domains s (drop place bytes.now)) }
    ensures fault { IfErr result (λ e. IsScriptFault e (first_fault Three domains (drop place bytes.now))) }
{
    match read_script(alloc, Version::Three, domains, &bytes[place..]) {
        Ok(script) => Ok(script),
        Err(ScriptFault::Memory) => Err(ReplayFault::Memory),
        Err(fault) => Err(ReplayFault::Script(fault)),
    }
}

// Reads the schedule, and then the script, which must be one that can be replayed.
fn replay_or_fault(
    alloc: Global,
    domains: u32,
    pools: u32,
    bytes: &[u8],
) -> Result<Replay, ReplayFault>
    requires { (1 ≤ domains) × (domains ≤ 8) }
    ensures found { IfOk result (λ r. SpellsReplay domains pools r bytes.now) }
    ensures fault { IfErr result (IsFirstUnlessMemory domains pools bytes.now) }
{
    if MAX_BYTES < bytes.len() {
        let bytes = bytes.len() as u64;
        return Err(ReplayFault::Script(ScriptFault::TooLong { bytes }));
    }
    let (schedule, place) = schedule_of(alloc, domains, bytes)?;
    let script = script_of(alloc, domains, bytes, place)?;
    match replayable(&script, domains, pools) {
        Ok(()) => Ok(Replay { schedule, script }),
        Err(NotReplayable { why }) => Err(ReplayFault::NotReplayable { why }),
    }
}

/// Reads the text of a replay on a heap of so many domains and pools: a schedule, as [`read_schedule`] has it, and
/// behind it a script for as many domains, as [`read_script`] has it, which can be replayed, as [`replayable`] has it.
///
/// The faults come in this order: more than 16,777,216 bytes together, the first wrong line of the schedule, the
/// first fault of the script, and why the script can't be replayed.
pub fn read_replay(
    alloc: Global,
    domains: u32,
    pools: u32,
    bytes: &[u8],
) -> Result<Replay, ReplayFault>
    requires { (1 ≤ domains) × (domains ≤ 8) }
    // What is read is spelled so.
    ensures found { IfOk result (λ r. SpellsReplay domains pools r bytes.now) }
    // What is spelled so is read, unless memory runs out.
    ensures only { (r : Replayed) → SpellsReplay domains pools r bytes.now → IsUnlessNoMemory result (Ok r) }
    // A fault is the first one of the bytes, unless memory ran out.
    ensures fault { IfErr result (IsFirstUnlessMemory domains pools bytes.now) }
    // The first fault of the bytes is answered, unless memory runs out.
    ensures refused { (e : declared_replay) → HasFault domains pools bytes.now e → IsUnlessNoMemory result (Err e) }
{
    replay_or_fault(alloc, domains, pools, bytes)
}
