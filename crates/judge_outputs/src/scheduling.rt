//! The judge where a schedule is asked for.
ghost use Rattle.std.specs.Prelude.{◌≡◌, ◌≢◌, List, ℕ, length, false, IfOk, IfErr, IsTrue, option_map};
ghost use Rattle.model_core.specs.Domains.{IsWithinLimits};
ghost use Rattle.model_core.specs.declared.state.Sizes.{Sizes as declared_sizes};
ghost use Rattle.text_script.specs.Forms.{version_number};
ghost use Rattle.model_traces.specs.Scheduled.Runs.{IsPlainScript};
ghost use Rattle.judge_outputs.specs.declared.judged.Judged.TheVariants as other;
ghost use Rattle.judge_outputs.specs.Answer.{ExplainsScript, IsTrueAnswer};
ghost use Rattle.judge_outputs.specs.Faulting.{FaultDecides};
ghost use Rattle.judge_outputs.specs.Judging.{IsInput, Refuses};
ghost use Rattle.judge_outputs.specs.Scheduling.{FindsFault, FoundTurns, IsTurnsOfBytes, IsTurnsRefused, IsTurnsSilent, IsTurnsTold, Wrote, PrintedTurns, RefusesTurns, TellsTurns, turns_output};
ghost use Rattle.judge_outputs.specs.Written.{WritesAnswer, WritesFront};

use crate::Judged;
use crate::explain::{Explained, Seek, explain};
use crate::judging::read_input;
use crate::reading::{ReadStop, read_bytes};
use crate::show::{gave_up_near, none_found};
use crate::turns::{gather_turns, turns_text};
use judge_plain::scheduled::scheduled_text;
use model_core::entry::Entry;
use model_core::state::Sizes;
use model_traces::schedules::Item;
use std::alloc::{AllocError, Global};
use text_ends::{Failed, Sink, Source, write_all};
use text_script::Script;

/// What came of judging an output where a schedule is asked for.
#[derive(Clone, Copy, Debug, PartialEq, Eq)]
pub enum TurnsJudged {
    /// Some legal history makes the output. The schedule of its turns was written.
    Printed,
    /// Some legal history makes the output, and it has no schedule. Nothing was written.
    NoSchedule,
    /// What the judge answers else.
    Other(Judged),
}

// What is written, and what is answered then.
#[derive(Drop)]
struct Answer {
    text: Vec<u8>,
    judged: TurnsJudged,
}

// The turns of a history of a script. There are none where it spawns.
fn turns_found(
    alloc: Global,
    script: &Script,
    history: &[Entry],
) -> Result<Option<Vec<Item>>, AllocError>
    ensures { IfOk result (λ o. FoundTurns script.now history.now (option_map (λ v. v.items) o)) }
{
    if script.version() == 3 {
        return Ok(None);
    }
    gather_turns(alloc, history)
}

// Whether a script prints this output under the schedule of these items.
fn prints(
    alloc: Global,
    sizes: &Sizes,
    script: &Script,
    items: &[Item],
    output: &[u8],
) -> Result<bool, AllocError>
    requires limits { IsWithinLimits sizes.now }
    requires sections { length script.now.sections ≡ sizes.now.domains }
    requires plain { IsPlainScript script.now.sections }
    ensures yes { IfOk result (λ yes. IsTrue yes → turns_output sizes.now script.now.sections items.now ≡ output.now) }
    ensures no { IfOk result (λ yes. yes ≡ false → turns_output sizes.now script.now.sections items.now ≢ output.now) }
{
    let text = scheduled_text(alloc, sizes, script, items)?;
    Ok(text.as_slice() == output)
}

// The turns of a history of a script, if it prints this output under their schedule.
fn turns_printed(
    alloc: Global,
    sizes: &Sizes,
    script: &Script,
    history: &[Entry],
    output: &[u8],
) -> Result<Option<Vec<Item>>, AllocError>
    requires limits { IsWithinLimits sizes.now }
    requires sections { length script.now.sections ≡ sizes.now.domains }
    requires plain { version_number script.now.version ≢ 3 → IsPlainScript script.now.sections }
    ensures { IfOk result (λ o. PrintedTurns sizes.now script.now output.now history.now (option_map (λ v. v.items) o)) }
{
    let Some(items) = turns_found(alloc, script, history)? else {
        return Ok(None);
    };
    if prints(alloc, sizes, script, &items, output)? {
        Ok(Some(items))
    } else {
        Ok(None)
    }
}

// What is written of a history that was found.
#[tactic(auto, using(crate::proofs::TurnLemmas::printed_turns, crate::proofs::TurnLemmas::no_turns))]
fn tell_found(
    alloc: Global,
    sizes: &Sizes,
    script: &Script,
    history: &[Entry],
    output: &[u8],
) -> Result<Answer, AllocError>
    requires limits { IsWithinLimits sizes.now }
    requires sections { length script.now.sections ≡ sizes.now.domains }
    requires plain { version_number script.now.version ≢ 3 → IsPlainScript script.now.sections }
    ensures { (bytes : List ℕ) → IsInput sizes.now.domains bytes script.now output.now → ExplainsScript sizes.now script.now output.now history.now
        → IfOk result (λ a. TellsTurns sizes.now bytes a.judged a.text.items) }
{
    match turns_printed(alloc, sizes, script, history, output)? {
        Some(items) => Ok(Answer {
            text: turns_text(alloc, &items)?,
            judged: TurnsJudged::Printed,
        }),
        None => Ok(Answer {
            text: Vec::new(alloc),
            judged: TurnsJudged::NoSchedule,
        }),
    }
}

// What is written of what a search came to.
fn tell(
    alloc: Global,
    sizes: &Sizes,
    script: &Script,
    output: &[u8],
    explained: &Explained,
) -> Result<Answer, AllocError>
    requires limits { IsWithinLimits sizes.now }
    requires sections { length script.now.sections ≡ sizes.now.domains }
    requires plain { version_number script.now.version ≢ 3 → IsPlainScript script.now.sections }
    ensures { (bytes : List ℕ) → IsInput sizes.now.domains bytes script.now output.now → IsTrueAnswer sizes.now script.now output.now explained.now
        → IfOk result (λ a. TellsTurns sizes.now bytes a.judged a.text.items) }
{
    match explained {
        Explained::Legal(history) => tell_found(alloc, sizes, script, history, output),
        Explained::NoneFound { states, near } => Ok(Answer {
            text: none_found(alloc, *states, near)?,
            judged: TurnsJudged::Other(Judged::NoneFound),
        }),
        Explained::GaveUp { states, near } => Ok(Answer {
            text: gave_up_near(alloc, *states, near)?,
            judged: TurnsJudged::Other(Judged::GaveUp),
        }),
    }
}

// What is written of these bytes, and what is answered.
#[tactic(auto, using(crate::proofs::ReplayLemmas::input_sections, crate::proofs::ReplayLemmas::input_plain))]
fn answer_to<F: Seek>(
    alloc: Global,
    sizes: &Sizes,
    bytes: &[u8],
    search: &mut F,
) -> Result<Answer, Judged>
    requires { IsWithinLimits sizes.now }
    ensures found { IfOk result (λ a. TellsTurns sizes.now bytes.now a.judged a.text.items) }
    ensures refused { IfErr result (Refuses sizes.now.domains bytes.now) }
{
    let (script, output) = read_input(alloc, sizes.domains, bytes)?;
    let Ok(explained) = explain(alloc, sizes, &script, output, search) else {
        return Err(Judged::Memory);
    };
    match tell(alloc, sizes, &script, output, &explained) {
        Ok(answer) => Ok(answer),
        Err(AllocError) => Err(Judged::Memory),
    }
}

// Judges the output in these bytes.
fn judge_bytes<K: Sink, F: Seek>(
    alloc: Global,
    sizes: &Sizes,
    bytes: &[u8],
    out: &mut K,
    search: &mut F,
) -> TurnsJudged
    requires { IsWithinLimits sizes.now }
    ensures told { IsTurnsTold result → WritesAnswer (TellsTurns sizes.now bytes.now) result (K.written out.old) (K.written out.new) }
    ensures cut { result ≡ TurnsJudged.Other other.WriteFault
        → WritesFront (TellsTurns sizes.now bytes.now) (K.written out.old) (K.written out.new) }
    ensures refused { IsTurnsRefused result → RefusesTurns sizes.now.domains bytes.now result }
    ensures quiet { IsTurnsSilent result → out.new ≡ out.old }
    ensures writes { FaultDecides result (TurnsJudged.Other other.WriteFault) (K.faults out.old) (K.faults out.new) }
    ensures reads { IsTurnsOfBytes result }
{
    match answer_to(alloc, sizes, bytes, search) {
        Ok(answer) => match write_all(out, &answer.text) {
            Ok(()) => answer.judged,
            Err(Failed) => TurnsJudged::Other(Judged::WriteFault),
        },
        Err(judged) => TurnsJudged::Other(judged),
    }
}

/// Judges an output as [`judge`](crate::judge) does, and writes the schedule of the turns of the history that was found in place
/// of `legal` and that history.
///
/// The items are its turns and complete collections, in order, and a replay of them prints the judged output. A history has no
/// schedule where a command is answered `full`, a collection isn't complete or answers two `full_major`, another domain's entry
/// stands between a finaliser and the next command of its domain, or a replay of it prints otherwise; nor has one of a script of
/// version 3. One of calls alone, in which neither a collection nor a finaliser comes in, has one.
pub fn judge_turns<S: Source, K: Sink, F: Seek>(
    alloc: Global,
    sizes: &Sizes,
    src: &mut S,
    out: &mut K,
    search: &mut F,
) -> TurnsJudged
    requires { IsWithinLimits sizes.now }
    // What was written: a schedule only where a legal history makes the output, of its turns, which print it again.
    ensures wrote { Wrote sizes.now result (S.left src.old) (S.left src.new) (K.written out.old) (K.written out.new) }
    ensures quiet { IsTurnsSilent result → out.new ≡ out.old }

    // When each other answer comes. A read or a write that failed decides the answer: none is tried again.
    ensures finds { FindsFault sizes.now.domains result (S.left src.old) (S.left src.new) }
    ensures reads { FaultDecides result (TurnsJudged.Other other.ReadFault) (S.faults src.old) (S.faults src.new) }
    ensures writes { FaultDecides result (TurnsJudged.Other other.WriteFault) (K.faults out.old) (K.faults out.new) }
{
    match read_bytes(alloc, src) {
        Ok(bytes) => judge_bytes(alloc, sizes, &bytes, out, search),
        Err(ReadStop::Fault) => TurnsJudged::Other(Judged::ReadFault),
        Err(ReadStop::TooLong) => TurnsJudged::Other(Judged::TooLong),
        Err(ReadStop::Memory) => TurnsJudged::Other(Judged::Memory),
    }
}
