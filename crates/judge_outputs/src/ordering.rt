//! The judge of outputs of several domains' texts of a table, from the bytes that are read to the bytes that are written.
ghost use Rattle.std.specs.Prelude.{◌≡◌, ◌≤◌, ◌++◌, ℕ, List, IfOk, IfErr, OnOk};
ghost use Rattle.table_text.specs.Sections.Spelling.{Sections};
ghost use Rattle.judge_outputs.specs.Faulting.{FaultDecides};
ghost use Rattle.judge_outputs.specs.Judging.{IsOfBytes, IsRefused, IsSilent, IsTold};
ghost use Rattle.judge_outputs.specs.Ordering.{FindsFault, IsSectionsInput, RefusesSections, TellsSections, Wrote, no_order_text, order_text, turn_text};
ghost use Rattle.judge_outputs.specs.Sections.Answer.{IsTrueAnswer};
ghost use Rattle.judge_outputs.specs.Written.{WritesAnswer, WritesFront};

use crate::input::split_input;
use crate::judged::Judged;
use crate::reading::{ReadStop, read_bytes};
use crate::sections::{Explained, Turn, explain_sections};
use crate::show::{gave_up, push, push_between};
use crate::texts::replies::push_line;
use std::alloc::{AllocError, Global};
use table_text::{SectionsText, read_sections};
use text_ends::{Failed, Sink, Source, write_all};
use text_script::ScriptFault;

// What is written, and what is answered then.
#[derive(Drop)]
struct Answer {
    text: Vec<u8>,
    judged: Judged,
}

// The text before the line between, and the output behind it.
fn read_input(alloc: Global, domains: u32, bytes: &[u8]) -> Result<(SectionsText, &[u8]), Judged>
    requires { domains ≤ 8 }
    ensures found { IfOk result (λ p. IsSectionsInput domains bytes.now p.0 p.1.now) }
    ensures refused { IfErr result (RefusesSections domains bytes.now) }
{
    let Some((text, output)) = split_input(bytes) else {
        return Err(Judged::NoSeparator);
    };
    match read_sections(alloc, domains, text) {
        Ok(sections) => Ok((sections, output)),
        Err(ScriptFault::Memory) => Err(Judged::Memory),
        Err(fault) => Err(Judged::Script(fault)),
    }
}

// Puts the line of a turn at the end.
fn push_turn(text: &mut Vec<u8>, turn: &Turn) -> Result<(), AllocError>
    ensures { OnOk result (text.new.items ≡ text.old.items ++ turn_text turn.now) }
{
    push_between(text, b"domain ", u32::from(turn.domain), b": ")?;
    push_line(text, turn.reply)
}

// That an order was found, and its turns, each on a line.
fn order(alloc: Global, turns: &[Turn]) -> Result<Vec<u8>, AllocError>
    ensures { IfOk result (λ v. v.items ≡ order_text turns.now) }
{
    let mut text = Vec::new(alloc);
    push(&mut text, b"legal\n")?;
    for turn in turns {
        push_turn(&mut text, turn)?;
    }
    Ok(text)
}

// That none was found.
fn no_order(alloc: Global) -> Result<Vec<u8>, AllocError>
    ensures { IfOk result (λ v. v.items ≡ no_order_text) }
{
    let mut text = Vec::new(alloc);
    push(
        &mut text,
        b"no order found; tests alone show that there is none then\n",
    )?;
    Ok(text)
}

// What is written of what was found, or not in so many states.
fn tell(alloc: Global, states: u64, explained: &Explained) -> Result<Answer, AllocError>
    ensures { (domains : ℕ) (bytes output : List ℕ) (sections : Sections) → IsSectionsInput domains bytes sections output → IsTrueAnswer sections output explained.now
        → IfOk result (λ a. TellsSections domains states bytes a.judged a.text.items) }
{
    match explained {
        Explained::Legal(turns) => Ok(Answer {
            text: order(alloc, turns)?,
            judged: Judged::Legal,
        }),
        Explained::NoneFound => Ok(Answer {
            text: no_order(alloc)?,
            judged: Judged::NoneFound,
        }),
        Explained::GivenUp => Ok(Answer {
            text: gave_up(alloc, states)?,
            judged: Judged::GaveUp,
        }),
    }
}

// What is written of these bytes, and what is answered.
fn answer_to(alloc: Global, domains: u32, states: u64, bytes: &[u8]) -> Result<Answer, Judged>
    requires { domains ≤ 8 }
    ensures found { IfOk result (λ a. TellsSections domains states bytes.now a.judged a.text.items) }
    ensures refused { IfErr result (RefusesSections domains bytes.now) }
{
    let (text, output) = read_input(alloc, domains, bytes)?;
    let sections = text.into_sections();
    let Ok(explained) = explain_sections(alloc, &sections, output, states) else {
        return Err(Judged::Memory);
    };
    match tell(alloc, states, &explained) {
        Ok(answer) => Ok(answer),
        Err(AllocError) => Err(Judged::Memory),
    }
}

// Judges the output in these bytes.
fn judge_bytes<K: Sink>(
    alloc: Global,
    domains: u32,
    states: u64,
    bytes: &[u8],
    out: &mut K,
) -> Judged
    requires { domains ≤ 8 }
    ensures told { IsTold result → WritesAnswer (TellsSections domains states bytes.now) result (K.written out.old) (K.written out.new) }
    ensures cut { result ≡ Judged.WriteFault → WritesFront (TellsSections domains states bytes.now) (K.written out.old) (K.written out.new) }
    ensures refused { IsRefused result → RefusesSections domains bytes.now result }
    ensures quiet { IsSilent result → out.new ≡ out.old }
    ensures writes { FaultDecides result Judged.WriteFault (K.faults out.old) (K.faults out.new) }
    ensures reads { IsOfBytes result }
{
    match answer_to(alloc, domains, states, bytes) {
        Ok(answer) => match write_all(out, &answer.text) {
            Ok(()) => answer.judged,
            Err(Failed) => Judged::WriteFault,
        },
        Err(judged) => judged,
    }
}

/// Judges the output of a text of a table with a section for each of so many domains: reads the text, a line `---` and an output
/// from the source, looks at so many states at most for one order of all lines in which the machine of the domains gives replies that
/// are written as the output, and writes what came of it: `legal` and whose line comes next with its reply, turn by turn, or that
/// none was found, or that the search was given up.
///
/// The refusals come in the order in which the work is done: reading, too long an input, no line `---`, the text, writing. A
/// read or a write that failed isn't tried again. Want of memory may come at any time before the first byte is written.
///
/// No clause says that an order is found where there is one.
pub fn judge_sections<S: Source, K: Sink>(
    alloc: Global,
    domains: u32,
    states: u64,
    src: &mut S,
    out: &mut K,
) -> Judged
    requires { domains ≤ 8 }
    // What was written: `legal` only where the machine may answer so, and then in which order.
    ensures wrote { Wrote domains states result
        (S.left src.old) (S.left src.new) (K.written out.old) (K.written out.new) }
    ensures quiet { IsSilent result → out.new ≡ out.old }

    // When each other answer comes. A read or a write that failed decides the answer: none is tried again.
    ensures finds { FindsFault domains result (S.left src.old) (S.left src.new) }
    ensures reads { FaultDecides result Judged.ReadFault (S.faults src.old) (S.faults src.new) }
    ensures writes { FaultDecides result Judged.WriteFault (K.faults out.old) (K.faults out.new) }
{
    match read_bytes(alloc, src) {
        Ok(bytes) => judge_bytes(alloc, domains, states, &bytes, out),
        Err(ReadStop::Fault) => Judged::ReadFault,
        Err(ReadStop::TooLong) => Judged::TooLong,
        Err(ReadStop::Memory) => Judged::Memory,
    }
}
