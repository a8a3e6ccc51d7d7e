//! The judge of tables, from the bytes that are read to the bytes that are written.
ghost use Rattle.std.specs.Prelude.{◌≡◌, ◌++◌, ℕ, List, IfOk, IfErr, OnOk};
ghost use Rattle.model_core.specs.Domains.{IsWithinLimits};
ghost use Rattle.model_core.specs.declared.state.Sizes.{Sizes as declared_sizes};
ghost use Rattle.judge_outputs.specs.Texts.Answer.{IsTrueAnswer};
ghost use Rattle.table_text.specs.Texts as texts;
ghost use Rattle.judge_outputs.specs.Faulting.{FaultDecides};
ghost use Rattle.judge_outputs.specs.Tables.{FindsFault, IsOfTable, IsTableInput, IsTableRefused, IsTableSilent, IsTableTold, Wrote, RefusesTable, TellsTable, gone_text, no_run_text, run_text};
ghost use Rattle.judge_outputs.specs.Written.{WritesAnswer, WritesFront};

use crate::input::split_input;
use crate::reading::{ReadStop, read_bytes};
use crate::show::{counted, push, push_count};
use crate::texts::{Explained, Gone, explain_output};
use model_core::state::Sizes;
use std::alloc::{AllocError, Global};
use table_text::{TableText, read_table};
use text_ends::{Failed, Sink, Source, write_all};
use text_script::ScriptFault;

/// What came of judging the output of a table's text.
#[derive(Clone, Copy, Debug, PartialEq, Eq)]
pub enum JudgedTable {
    /// The output is that of a run of the text. It was written which keys go in it.
    Legal,
    /// No run was found. In that which was tried this line of the output, counted from 1, is the first that it hasn't.
    NoneFound { line: u64 },
    /// The text has this first fault.
    Text(ScriptFault),
    /// No line `---` stands behind a text.
    NoSeparator,
    /// The input has more bytes than are read.
    TooLong,
    /// A read failed.
    ReadFault,
    /// A write failed. A front part of the answer was written.
    WriteFault,
    /// Memory ran out before a byte was written.
    Memory,
}

// What is written, and what is answered then.
#[derive(Drop)]
struct Finding {
    text: Vec<u8>,
    judged: JudgedTable,
}

// The text before the line between, and the output behind it.
fn read_input(alloc: Global, bytes: &[u8]) -> Result<(TableText, &[u8]), JudgedTable>
    ensures found { IfOk result (λ p. IsTableInput bytes.now p.0 p.1.now) }
    ensures refused { IfErr result (RefusesTable bytes.now) }
{
    let Some((text, output)) = split_input(bytes) else {
        return Err(JudgedTable::NoSeparator);
    };
    match read_table(alloc, text) {
        Ok(table) => Ok((table, output)),
        Err(ScriptFault::Memory) => Err(JudgedTable::Memory),
        Err(fault) => Err(JudgedTable::Text(fault)),
    }
}

// Puts the line of a key that goes at the end.
fn push_gone(text: &mut Vec<u8>, gone: Gone) -> Result<(), AllocError>
    ensures { OnOk result (text.new.items ≡ text.old.items ++ gone_text gone) }
{
    let key = u64::from(gone.key) + 2;
    let before = u64::from(gone.before) + 2;
    push_count(text, b"the key of line ", key, b" goes before line ")?;
    push_count(text, b"", before, b"\n")
}

// That a run was found, and which keys go in it.
fn run(alloc: Global, gone: &[Gone]) -> Result<Vec<u8>, AllocError>
    ensures { IfOk result (λ v. v.items ≡ run_text gone.now) }
{
    let mut text = Vec::new(alloc);
    push(&mut text, b"legal\n")?;
    for one in gone {
        push_gone(&mut text, *one)?;
    }
    Ok(text)
}

// That none was found.
fn no_run(alloc: Global, line: u64) -> Result<Vec<u8>, AllocError>
    ensures { IfOk result (λ v. v.items ≡ no_run_text line) }
{
    counted(
        alloc,
        b"no run found: line ",
        line,
        b" of the output is the first that the run which was tried hasn't; tests alone show that there is none then\n",
    )
}

// What is written of what was found.
fn tell(alloc: Global, explained: &Explained) -> Result<Finding, AllocError>
    ensures { (z : declared_sizes) (bytes output : List ℕ) (table : texts.Text) → IsTableInput bytes table output → IsTrueAnswer z table output explained.now
        → IfOk result (λ f. TellsTable z bytes f.judged f.text.items) }
{
    match explained {
        Explained::Run(gone) => Ok(Finding {
            text: run(alloc, gone)?,
            judged: JudgedTable::Legal,
        }),
        Explained::NoneFound { line } => Ok(Finding {
            text: no_run(alloc, *line)?,
            judged: JudgedTable::NoneFound { line: *line },
        }),
    }
}

// What is written of these bytes, and what is answered.
fn find(alloc: Global, sizes: &Sizes, bytes: &[u8]) -> Result<Finding, JudgedTable>
    requires { IsWithinLimits sizes.now }
    ensures found { IfOk result (λ f. TellsTable sizes.now bytes.now f.judged f.text.items) }
    ensures refused { IfErr result (RefusesTable bytes.now) }
{
    let (table, output) = read_input(alloc, bytes)?;
    let Ok(explained) = explain_output(alloc, sizes, &table, output) else {
        return Err(JudgedTable::Memory);
    };
    match tell(alloc, &explained) {
        Ok(finding) => Ok(finding),
        Err(AllocError) => Err(JudgedTable::Memory),
    }
}

// Judges the output in these bytes.
fn judge_bytes<K: Sink>(alloc: Global, sizes: &Sizes, bytes: &[u8], out: &mut K) -> JudgedTable
    requires { IsWithinLimits sizes.now }
    ensures told { IsTableTold result → WritesAnswer (TellsTable sizes.now bytes.now) result (K.written out.old) (K.written out.new) }
    ensures cut { result ≡ JudgedTable.WriteFault → WritesFront (TellsTable sizes.now bytes.now) (K.written out.old) (K.written out.new) }
    ensures refused { IsTableRefused result → RefusesTable bytes.now result }
    ensures quiet { IsTableSilent result → out.new ≡ out.old }
    ensures writes { FaultDecides result JudgedTable.WriteFault (K.faults out.old) (K.faults out.new) }
    ensures reads { IsOfTable result }
{
    match find(alloc, sizes, bytes) {
        Ok(finding) => match write_all(out, &finding.text) {
            Ok(()) => finding.judged,
            Err(Failed) => JudgedTable::WriteFault,
        },
        Err(judged) => judged,
    }
}

/// Judges the output of a table's text: reads the text, a line `---` and an output from the source, looks for a run of the
/// machine of the text on a heap of these sizes whose replies are written as the output, and writes what came of it: `legal` and
/// the keys that go in that run, each with the line before which it goes, or the first line of the output that the run which was
/// tried hasn't.
///
/// The refusals come in the order in which the work is done: reading, too long an input, no line `---`, the text, writing. A
/// read or a write that failed isn't tried again. Want of memory may come at any time before the first byte is written.
///
/// No clause says that a run is found where there is one. The search is never given up.
pub fn judge_table<S: Source, K: Sink>(
    alloc: Global,
    sizes: &Sizes,
    src: &mut S,
    out: &mut K,
) -> JudgedTable
    requires { IsWithinLimits sizes.now }
    // What was written: `legal` only where the machine of the text may answer so, and then which keys go.
    ensures wrote { Wrote sizes.now result (S.left src.old) (S.left src.new) (K.written out.old) (K.written out.new) }
    ensures quiet { IsTableSilent result → out.new ≡ out.old }

    // When each other answer comes. A read or a write that failed decides the answer: none is tried again.
    ensures finds { FindsFault result (S.left src.old) (S.left src.new) }
    ensures reads { FaultDecides result JudgedTable.ReadFault (S.faults src.old) (S.faults src.new) }
    ensures writes { FaultDecides result JudgedTable.WriteFault (K.faults out.old) (K.faults out.new) }
{
    match read_bytes(alloc, src) {
        Ok(bytes) => judge_bytes(alloc, sizes, &bytes, out),
        Err(ReadStop::Fault) => JudgedTable::ReadFault,
        Err(ReadStop::TooLong) => JudgedTable::TooLong,
        Err(ReadStop::Memory) => JudgedTable::Memory,
    }
}
