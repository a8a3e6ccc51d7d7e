//! The judge, from the bytes that are read to the bytes that are written.
ghost use Rattle.std.specs.Prelude.{◌≡◌, List, ℕ, IfOk, IfErr};
ghost use Rattle.model_core.specs.Domains.{IsWithinLimits};
ghost use Rattle.model_core.specs.declared.state.Sizes.{Sizes as declared_sizes};
ghost use Rattle.text_script.specs.Script.{Scripted};
ghost use Rattle.judge_outputs.specs.Answer.{IsTrueAnswer};
ghost use Rattle.judge_outputs.specs.Faulting.{FaultDecides};
ghost use Rattle.judge_outputs.specs.Judging.{FindsFault, IsInput, IsOfBytes, IsRefused, IsSilent, IsTold, Wrote, Refuses, Tells};
ghost use Rattle.judge_outputs.specs.Written.{WritesAnswer, WritesFront};

use crate::Judged;
use crate::explain::{Explained, Seek, explain};
use crate::input::split_input;
use crate::reading::{ReadStop, read_bytes};
use crate::show::{gave_up_near, legal, none_found};
use model_core::state::Sizes;
use std::alloc::{AllocError, Global};
use text_ends::{Failed, Sink, Source, write_all};
use text_script::{Script, ScriptFault, Version, read_script};

// What is written, and what is answered then.
#[derive(Drop)]
struct Answer {
    text: Vec<u8>,
    judged: Judged,
}

// The script before the line between, and the output behind it.
pub(crate) fn read_input(
    alloc: Global,
    domains: u32,
    bytes: &[u8],
) -> Result<(Script, &[u8]), Judged>
    ensures found { IfOk result (λ p. IsInput domains bytes.now p.0 p.1.now) }
    ensures refused { IfErr result (Refuses domains bytes.now) }
{
    let Some((text, output)) = split_input(bytes) else {
        return Err(Judged::NoSeparator);
    };
    match read_script(alloc, Version::Three, domains, text) {
        Ok(script) => Ok((script, output)),
        Err(ScriptFault::Memory) => Err(Judged::Memory),
        Err(fault) => Err(Judged::Script(fault)),
    }
}

// What is written of what a search came to.
fn tell(alloc: Global, explained: &Explained) -> Result<Answer, AllocError>
    ensures { (z : declared_sizes) (bytes output : List ℕ) (script : Scripted) → IsInput z.domains bytes script output → IsTrueAnswer z script output explained.now
        → IfOk result (λ a. Tells z bytes a.judged a.text.items) }
{
    match explained {
        Explained::Legal(history) => Ok(Answer {
            text: legal(alloc, history)?,
            judged: Judged::Legal,
        }),
        Explained::NoneFound { states, near } => Ok(Answer {
            text: none_found(alloc, *states, near)?,
            judged: Judged::NoneFound,
        }),
        Explained::GaveUp { states, near } => Ok(Answer {
            text: gave_up_near(alloc, *states, near)?,
            judged: Judged::GaveUp,
        }),
    }
}

// What is written of these bytes, and what is answered.
fn answer_to<F: Seek>(
    alloc: Global,
    sizes: &Sizes,
    bytes: &[u8],
    search: &mut F,
) -> Result<Answer, Judged>
    requires { IsWithinLimits sizes.now }
    ensures found { IfOk result (λ a. Tells sizes.now bytes.now a.judged a.text.items) }
    ensures refused { IfErr result (Refuses sizes.now.domains bytes.now) }
{
    let (script, output) = read_input(alloc, sizes.domains, bytes)?;
    let Ok(explained) = explain(alloc, sizes, &script, output, search) else {
        return Err(Judged::Memory);
    };
    match tell(alloc, &explained) {
        Ok(answer) => Ok(answer),
        Err(AllocError) => Err(Judged::Memory),
    }
}

// Judges the output in these bytes.
fn judge_bytes<K: Sink, F: Seek>(
    alloc: Global,
    sizes: &Sizes,
    bytes: &[u8],
    out: &mut K,
    search: &mut F,
) -> Judged
    requires { IsWithinLimits sizes.now }
    ensures told { IsTold result → WritesAnswer (Tells sizes.now bytes.now) result (K.written out.old) (K.written out.new) }
    ensures cut { result ≡ Judged.WriteFault → WritesFront (Tells sizes.now bytes.now) (K.written out.old) (K.written out.new) }
    ensures refused { IsRefused result → Refuses sizes.now.domains bytes.now result }
    ensures quiet { IsSilent result → out.new ≡ out.old }
    ensures writes { FaultDecides result Judged.WriteFault (K.faults out.old) (K.faults out.new) }
    ensures reads { IsOfBytes result }
{
    match answer_to(alloc, sizes, bytes, search) {
        Ok(answer) => match write_all(out, &answer.text) {
            Ok(()) => answer.judged,
            Err(Failed) => Judged::WriteFault,
        },
        Err(judged) => judged,
    }
}

/// Judges an output: reads a script, a line `---` and an output from the source, has the search look for a
/// legal history of a heap of these sizes in which each domain makes the commands of its section, each once and in order, and
/// ends, and which prints the output (of a script of version 3, the steps that its section stands for), and writes what came of it: `legal` and a line for each entry of that history, or that
/// none was found, or that the search was given up, then with a legal output that is near the judged one.
///
/// The refusals come in the order in which the work is done: reading, too long an input, no line `---`, the script, writing. A
/// read or a write that failed isn't tried again. Want of memory may come at any time before the first byte is written.
///
/// No clause says that a history is found where there is one.
pub fn judge<S: Source, K: Sink, F: Seek>(
    alloc: Global,
    sizes: &Sizes,
    src: &mut S,
    out: &mut K,
    search: &mut F,
) -> Judged
    requires { IsWithinLimits sizes.now }
    // What was written: `legal` only where a legal history of the script makes the output, and then that history.
    ensures wrote { Wrote sizes.now result (S.left src.old) (S.left src.new) (K.written out.old) (K.written out.new) }
    ensures quiet { IsSilent result → out.new ≡ out.old }

    // When each other answer comes. A read or a write that failed decides the answer: none is tried again.
    ensures finds { FindsFault sizes.now.domains result (S.left src.old) (S.left src.new) }
    ensures reads { FaultDecides result Judged.ReadFault (S.faults src.old) (S.faults src.new) }
    ensures writes { FaultDecides result Judged.WriteFault (K.faults out.old) (K.faults out.new) }
{
    match read_bytes(alloc, src) {
        Ok(bytes) => judge_bytes(alloc, sizes, &bytes, out, search),
        Err(ReadStop::Fault) => Judged::ReadFault,
        Err(ReadStop::TooLong) => Judged::TooLong,
        Err(ReadStop::Memory) => Judged::Memory,
    }
}
