//! Reads the script, the text of a replay, or the text of a table that a source gives.
ghost use Rattle.std.specs.Prelude.{◌≡◌, ◌<◌, ◌≤◌, List, IfOk, IfErr, IsErr, Some, Ok, Err};
ghost use Rattle.text_ends.specs.Faults.{Rose};
ghost use Rattle.text_script.specs.Script.{Scripted};
ghost use Rattle.text_script.specs.Spelling.{IsUnlessMemory, Spells};
ghost use Rattle.text_script.specs.Faults.{first_fault, IsFaultUnlessMemory};
ghost use Rattle.text_script.specs.declared.version.Version.TheVariants.{Three};
ghost use Rattle.text_script.specs.declared.fault.ScriptFault.{ScriptFault};
ghost use Rattle.text_script.specs.declared.schedule.text.replay.ReplayFault.{ReplayFault as declared_fault};
ghost use Rattle.text_script.specs.Schedule.Text.Replays.{Replayed};
ghost use Rattle.table_text.specs.Texts.{Text};
ghost use Rattle.table_text.specs.Faults.{first_fault as table_fault};
ghost use Rattle.table_text.specs.Sections.Spelling.{Sections};
ghost use Rattle.table_text.specs.Sections.Faults.{first_sections_fault};
ghost use Rattle.camlheap_run.specs.Reading.{AreRead, IsFirst, IsNoReplay, IsNoScript, ReadsFault, ReadsFirstFault, ReadsReplay, ReadsReplayFault, ReadsScript, ReadsSections, ReadsTable, TellsFault, TellsFirst, TellsReplay, TellsReplayFault, TellsScript, TellsSections, TellsTable};

use crate::read::threads::read_together;
use model_core::state::Sizes;
use std::alloc::{AllocError, Global};
use std::sync::Wait;
use std::thread::Threads;
use table_text::{SectionsText, TableText, read_sections, read_table};
use text_ends::Source;
use text_script::schedule::text::{Replay, ReplayFault, read_replay};
use text_script::{Script, ScriptFault, Version, read_script};

/// Why not all bytes of a source were read.
#[derive(Clone, Copy, Debug, PartialEq, Eq)]
pub(crate) enum ReadStop {
    Fault,
    Memory,
}

// The most bytes that are read: one more than a script may have, so that a longer one is seen.
pub(crate) const MOST_READ: usize = 16_777_217;

// Reads to the end of the source, or the most bytes that are read. Each read asks for at most 4096 bytes.
pub(crate) fn read_bytes<S: Source>(alloc: Global, src: &mut S) -> Result<Vec<u8>, ReadStop>
    ensures later { S.faults src.old ≤ S.faults src.new }
    ensures fault { result ≡ Err ReadStop.Fault → Rose (S.faults src.old) (S.faults src.new) }
    ensures failed { S.faults src.old < S.faults src.new → result ≡ Err ReadStop.Fault }
    ensures bytes { IfOk result (λ v. AreRead (S.left src.old) (S.left src.new) v.items) }
{
    let mut bytes = Vec::new(alloc);
    let mut buf = [0u8; 4096];
    'reading: while bytes.len() < MOST_READ {
        let wanted = (MOST_READ - bytes.len()).min(buf.len());
        let Ok(count) = src.read(&mut buf[..wanted]) else {
            return Err(ReadStop::Fault);
        };
        if count == 0 {
            return Ok(bytes);
        }
        if bytes.extend_from_slice(&buf[..count]).is_err() {
            return Err(ReadStop::Memory);
        }
    }
    Ok(bytes)
}

/// Why a source gave no script, or no text of a table.
#[derive(Clone, Copy, Debug, PartialEq, Eq)]
pub(crate) enum NoScript {
    ReadFault,
    Refused(ScriptFault),
    Memory,
}

// Want of memory is no fault of the text.
fn no_script(fault: ScriptFault) -> NoScript
    ensures { IsNoScript fault result }
{
    match fault {
        ScriptFault::Memory => NoScript::Memory,
        _ => NoScript::Refused(fault),
    }
}

// Reads a script of any version. The sections of one without spawns are read in threads, where there may be several. It is
// read again as a whole where that gives none, so that its first fault is told.
fn read_text<R: Threads + Wait + Sync>(
    rt: &R,
    alloc: Global,
    domains: u32,
    text: &Vec<u8>,
) -> Result<Script, ScriptFault>
    requires { (1 ≤ domains) × (domains ≤ 8) }
    ensures found { IfOk result (λ s. Spells Three domains s text.now.items) }
    ensures only { (s : Scripted) → Spells Three domains s text.now.items → IsUnlessMemory result (Ok s) }
    ensures fault { IfErr result (λ e. IsFaultUnlessMemory e (first_fault Three domains text.now.items)) }
    ensures refused { (e : ScriptFault) → first_fault Three domains text.now.items ≡ Some e → IsUnlessMemory result (Err e) }
{
    if domains < 2 {
        return read_script(alloc, Version::Three, domains, text.as_slice());
    }
    match read_together(rt, alloc, domains, text) {
        Ok(Some(script)) => Ok(script),
        Ok(None) => read_script(alloc, Version::Three, domains, text.as_slice()),
        Err(AllocError) => Err(ScriptFault::Memory),
    }
}

// Reads the source, and the script that its bytes spell.
pub(crate) fn script_of<R: Threads + Wait + Sync, S: Source>(
    rt: &R,
    alloc: Global,
    domains: u32,
    src: &mut S,
) -> Result<Script, NoScript>
    requires { (1 ≤ domains) × (domains ≤ 8) }
    ensures later { S.faults src.old ≤ S.faults src.new }
    ensures fault { result ≡ Err NoScript.ReadFault → Rose (S.faults src.old) (S.faults src.new) }
    ensures failed { S.faults src.old < S.faults src.new → result ≡ Err NoScript.ReadFault }
    ensures script { IfOk result (ReadsScript domains (S.left src.old) (S.left src.new)) }
    ensures refused { (f : ScriptFault) → result ≡ Err (NoScript.Refused f) → ReadsFault domains (S.left src.old) (S.left src.new) f }

    // What spells a script isn't refused, and what has a fault isn't read.
    ensures only_faults { (s : Scripted) (f : ScriptFault) → TellsScript domains (S.left src.old) s → result ≡ Err (NoScript.Refused f) → ⊥ }
    ensures only_scripts { (f : ScriptFault) → TellsFault domains (S.left src.old) f → IsErr result }
{
    let bytes = match read_bytes(alloc, src) {
        Ok(bytes) => bytes,
        Err(ReadStop::Fault) => return Err(NoScript::ReadFault),
        Err(ReadStop::Memory) => return Err(NoScript::Memory),
    };
    match read_text(rt, alloc, domains, &bytes) {
        Ok(script) => Ok(script),
        Err(fault) => Err(no_script(fault)),
    }
}

/// Why a source gave no replay.
#[derive(Clone, Copy, Debug, PartialEq, Eq)]
pub(crate) enum NoReplay {
    ReadFault,
    Refused(ReplayFault),
    Memory,
}

// Want of memory is no fault of the text.
fn no_replay(fault: ReplayFault) -> NoReplay
    ensures { IsNoReplay fault result }
{
    match fault {
        ReplayFault::Memory => NoReplay::Memory,
        _ => NoReplay::Refused(fault),
    }
}

// Reads the source, and the replay that its bytes spell, on a heap of these sizes.
pub(crate) fn replay_of<S: Source>(
    alloc: Global,
    sizes: &Sizes,
    src: &mut S,
) -> Result<Replay, NoReplay>
    requires { (1 ≤ sizes.now.domains) × (sizes.now.domains ≤ 8) }
    ensures later { S.faults src.old ≤ S.faults src.new }
    ensures fault { result ≡ Err NoReplay.ReadFault → Rose (S.faults src.old) (S.faults src.new) }
    ensures failed { S.faults src.old < S.faults src.new → result ≡ Err NoReplay.ReadFault }
    ensures replay { IfOk result (ReadsReplay sizes.now (S.left src.old) (S.left src.new)) }
    ensures refused { (f : declared_fault) → result ≡ Err (NoReplay.Refused f) → ReadsReplayFault sizes.now (S.left src.old) (S.left src.new) f }

    // What spells a replay isn't refused, and what has a fault isn't read.
    ensures only_faults { (r : Replayed) (f : declared_fault) → TellsReplay sizes.now (S.left src.old) r → result ≡ Err (NoReplay.Refused f) → ⊥ }
    ensures only_replays { (f : declared_fault) → TellsReplayFault sizes.now (S.left src.old) f → IsErr result }
{
    let bytes = match read_bytes(alloc, src) {
        Ok(bytes) => bytes,
        Err(ReadStop::Fault) => return Err(NoReplay::ReadFault),
        Err(ReadStop::Memory) => return Err(NoReplay::Memory),
    };
    match read_replay(alloc, sizes.domains, sizes.pools, &bytes) {
        Ok(replay) => Ok(replay),
        Err(fault) => Err(no_replay(fault)),
    }
}

// Reads the source, and the text of a table that its bytes spell.
pub(crate) fn table_of<S: Source>(alloc: Global, src: &mut S) -> Result<TableText, NoScript>
    ensures later { S.faults src.old ≤ S.faults src.new }
    ensures fault { result ≡ Err NoScript.ReadFault → Rose (S.faults src.old) (S.faults src.new) }
    ensures failed { S.faults src.old < S.faults src.new → result ≡ Err NoScript.ReadFault }
    ensures text { IfOk result (ReadsTable (S.left src.old) (S.left src.new)) }
    ensures refused { (f : ScriptFault) → result ≡ Err (NoScript.Refused f) → ReadsFirstFault (IsFirst table_fault) (S.left src.old) (S.left src.new) f }

    // What spells a text isn't refused, and what has a fault isn't read.
    ensures only_faults { (text : Text) (f : ScriptFault) → TellsTable (S.left src.old) text → result ≡ Err (NoScript.Refused f) → ⊥ }
    ensures only_texts { (f : ScriptFault) → TellsFirst (IsFirst table_fault) (S.left src.old) f → IsErr result }
{
    let bytes = match read_bytes(alloc, src) {
        Ok(bytes) => bytes,
        Err(ReadStop::Fault) => return Err(NoScript::ReadFault),
        Err(ReadStop::Memory) => return Err(NoScript::Memory),
    };
    match read_table(alloc, &bytes) {
        Ok(text) => Ok(text),
        Err(fault) => Err(no_script(fault)),
    }
}

// Reads the source, and the sections of a table's text that its bytes spell.
pub(crate) fn sections_of<S: Source>(
    alloc: Global,
    domains: u32,
    src: &mut S,
) -> Result<SectionsText, NoScript>
    requires { domains ≤ 8 }
    ensures later { S.faults src.old ≤ S.faults src.new }
    ensures fault { result ≡ Err NoScript.ReadFault → Rose (S.faults src.old) (S.faults src.new) }
    ensures failed { S.faults src.old < S.faults src.new → result ≡ Err NoScript.ReadFault }
    ensures text { IfOk result (ReadsSections domains (S.left src.old) (S.left src.new)) }
    ensures refused { (f : ScriptFault) → result ≡ Err (NoScript.Refused f) → ReadsFirstFault (IsFirst (first_sections_fault domains)) (S.left src.old) (S.left src.new) f }

    // What spells a text isn't refused, and what has a fault isn't read.
    ensures only_faults { (sections : Sections) (f : ScriptFault) → TellsSections domains (S.left src.old) sections → result ≡ Err (NoScript.Refused f) → ⊥ }
    ensures only_texts { (f : ScriptFault) → TellsFirst (IsFirst (first_sections_fault domains)) (S.left src.old) f → IsErr result }
{
    let bytes = match read_bytes(alloc, src) {
        Ok(bytes) => bytes,
        Err(ReadStop::Fault) => return Err(NoScript::ReadFault),
        Err(ReadStop::Memory) => return Err(NoScript::Memory),
    };
    match read_sections(alloc, domains, &bytes) {
        Ok(text) => Ok(text),
        Err(fault) => Err(no_script(fault)),
    }
}
