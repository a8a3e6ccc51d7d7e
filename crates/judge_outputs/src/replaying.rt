//! The judge of replays, from the bytes that are read to the bytes that are written.
ghost use Rattle.std.specs.Prelude.{◌≡◌, ℕ, List, length, IfOk, IfErr};
ghost use Rattle.model_core.specs.Domains.{IsWithinLimits};
ghost use Rattle.model_core.specs.declared.state.Sizes.{Sizes as declared_sizes};
ghost use Rattle.judge_plain.specs.Scheduled.Lines.{differs_from};
ghost use Rattle.text_script.specs.Schedule.Text.Replays.{Replayed};
ghost use Rattle.model_traces.specs.Scheduled.Runs.{IsPlainScript};
ghost use Rattle.judge_outputs.specs.Faulting.{FaultDecides};
ghost use Rattle.judge_outputs.specs.Replays.{FindsFault, IsOfReplay, IsReplayInput, IsReplayRefused, IsReplaySilent, IsReplayTold, Wrote, RefusesReplay, TellsReplay, other_text, same_text, scheduled_output};
ghost use Rattle.judge_outputs.specs.Written.{WritesAnswer, WritesFront};

use crate::input::split_input;
use crate::reading::{ReadStop, read_bytes};
use crate::show::{counted, push};
use judge_plain::scheduled::{first_difference, scheduled_text};
use model_core::state::Sizes;
use std::alloc::{AllocError, Global};
use text_ends::{Failed, Sink, Source, write_all};
use text_script::schedule::text::{Replay, ReplayFault, read_replay};

/// What came of judging the output of a replay.
#[derive(Clone, Copy, Debug, PartialEq, Eq)]
pub enum JudgedReplay {
    /// The output is what the scheduled history prints. It was written.
    Legal,
    /// The output isn't that. This line, counted from 1, is the first that differs. It was written.
    Differs { line: u64 },
    /// The replay has this first fault.
    Replay(ReplayFault),
    /// No line `---` stands behind a replay.
    NoSeparator,
    /// The input has more bytes than are read.
    TooLong,
    /// A read failed.
    ReadFault,
    /// A write failed. A front part of the answer was written.
    WriteFault,
    /// Memory ran out before a byte was written.
    Memory,
}

// What is written, and what is answered then.
#[derive(Drop)]
struct Verdict {
    text: Vec<u8>,
    judged: JudgedReplay,
}

// The replay before the line between, and the output behind it.
fn read_input<'a>(
    alloc: Global,
    sizes: &Sizes,
    bytes: &'a [u8],
) -> Result<(Replay, &'a [u8]), JudgedReplay>
    requires { IsWithinLimits sizes.now }
    ensures found { IfOk result (λ p. IsReplayInput sizes.now bytes.now p.0 p.1.now) }
    ensures refused { IfErr result (RefusesReplay sizes.now bytes.now) }
{
    let Some((text, shown)) = split_input(bytes) else {
        return Err(JudgedReplay::NoSeparator);
    };
    match read_replay(alloc, sizes.domains, sizes.pools, text) {
        Ok(replay) => Ok((replay, shown)),
        Err(ReplayFault::Memory) => Err(JudgedReplay::Memory),
        Err(fault) => Err(JudgedReplay::Replay(fault)),
    }
}

// That an output is what the scheduled history prints.
fn same(alloc: Global) -> Result<Vec<u8>, AllocError>
    ensures { IfOk result (λ v. v.items ≡ same_text) }
{
    let mut text = Vec::new(alloc);
    push(&mut text, b"legal\n")?;
    Ok(text)
}

// That it isn't, first in this line.
fn other(alloc: Global, line: u64) -> Result<Vec<u8>, AllocError>
    ensures { IfOk result (λ v. v.items ≡ other_text line) }
{
    counted(
        alloc,
        b"not legal: line ",
        line,
        b" of the output is the first that the scheduled history prints otherwise\n",
    )
}

// What is written of an output that differs first in this line, if in any.
fn tell(alloc: Global, difference: Option<usize>) -> Result<Verdict, AllocError>
    ensures { (z : declared_sizes) (bytes shown : List ℕ) (r : Replayed) → IsReplayInput z bytes r shown → difference ≡ differs_from 1 (scheduled_output z r) shown
        → IfOk result (λ v. TellsReplay z bytes v.judged v.text.items) }
{
    match difference {
        None => Ok(Verdict {
            text: same(alloc)?,
            judged: JudgedReplay::Legal,
        }),
        Some(line) => {
            let line = line as u64;
            Ok(Verdict {
                text: other(alloc, line)?,
                judged: JudgedReplay::Differs { line },
            })
        }
    }
}

// In which line an output differs from what the scheduled history prints.
fn difference_in(
    alloc: Global,
    sizes: &Sizes,
    replay: &Replay,
    shown: &[u8],
) -> Result<Option<usize>, AllocError>
    requires limits { IsWithinLimits sizes.now }
    requires sections { length replay.now.script.sections ≡ sizes.now.domains }
    requires plain { IsPlainScript replay.now.script.sections }
    ensures { IfOk result (λ o. o ≡ differs_from 1 (scheduled_output sizes.now replay.now) shown.now) }
{
    let expected = scheduled_text(alloc, sizes, &replay.script, replay.schedule.items())?;
    Ok(first_difference(&expected, shown))
}

// What is written of these bytes, and what is answered.
#[tactic(auto, using(crate::proofs::ReplayLemmas::has_sections, crate::proofs::ReplayLemmas::is_plain))]
fn verdict_on(alloc: Global, sizes: &Sizes, bytes: &[u8]) -> Result<Verdict, JudgedReplay>
    requires { IsWithinLimits sizes.now }
    ensures found { IfOk result (λ v. TellsReplay sizes.now bytes.now v.judged v.text.items) }
    ensures refused { IfErr result (RefusesReplay sizes.now bytes.now) }
{
    let (replay, shown) = read_input(alloc, sizes, bytes)?;
    let Ok(difference) = difference_in(alloc, sizes, &replay, shown) else {
        return Err(JudgedReplay::Memory);
    };
    match tell(alloc, difference) {
        Ok(verdict) => Ok(verdict),
        Err(AllocError) => Err(JudgedReplay::Memory),
    }
}

// Judges the output in these bytes.
fn judge_bytes<K: Sink>(alloc: Global, sizes: &Sizes, bytes: &[u8], out: &mut K) -> JudgedReplay
    requires { IsWithinLimits sizes.now }
    ensures told { IsReplayTold result → WritesAnswer (TellsReplay sizes.now bytes.now) result (K.written out.old) (K.written out.new) }
    ensures cut { result ≡ JudgedReplay.WriteFault → WritesFront (TellsReplay sizes.now bytes.now) (K.written out.old) (K.written out.new) }
    ensures refused { IsReplayRefused result → RefusesReplay sizes.now bytes.now result }
    ensures quiet { IsReplaySilent result → out.new ≡ out.old }
    ensures writes { FaultDecides result JudgedReplay.WriteFault (K.faults out.old) (K.faults out.new) }
    ensures reads { IsOfReplay result }
{
    match verdict_on(alloc, sizes, bytes) {
        Ok(verdict) => match write_all(out, &verdict.text) {
            Ok(()) => verdict.judged,
            Err(Failed) => JudgedReplay::WriteFault,
        },
        Err(judged) => judged,
    }
}

/// Judges the output of a replay: reads the text of a replay for a heap of these sizes, a line `---` and an output from the
/// source, plays the scheduled history, and writes `legal` where the output is just what that prints, and else the first line
/// that isn't.
///
/// The refusals come in the order in which the work is done: reading, too long an input, no line `---`, the replay, writing. A
/// read or a write that failed isn't tried again. Want of memory may come at any time before the first byte is written.
pub fn judge_replay<S: Source, K: Sink>(
    alloc: Global,
    sizes: &Sizes,
    src: &mut S,
    out: &mut K,
) -> JudgedReplay
    requires { IsWithinLimits sizes.now }
    // What was written: `legal` where the scheduled history prints the output, and else the first line that differs.
    ensures wrote { Wrote sizes.now result (S.left src.old) (S.left src.new) (K.written out.old) (K.written out.new) }
    ensures quiet { IsReplaySilent result → out.new ≡ out.old }

    // When each other answer comes. A read or a write that failed decides the answer: none is tried again.
    ensures finds { FindsFault sizes.now result (S.left src.old) (S.left src.new) }
    ensures reads { FaultDecides result JudgedReplay.ReadFault (S.faults src.old) (S.faults src.new) }
    ensures writes { FaultDecides result JudgedReplay.WriteFault (K.faults out.old) (K.faults out.new) }
{
    match read_bytes(alloc, src) {
        Ok(bytes) => judge_bytes(alloc, sizes, &bytes, out),
        Err(ReadStop::Fault) => JudgedReplay::ReadFault,
        Err(ReadStop::TooLong) => JudgedReplay::TooLong,
        Err(ReadStop::Memory) => JudgedReplay::Memory,
    }
}
