//! Reads the text of a table.
ghost use Rattle.std.specs.Prelude.{◌≡◌, ◌==◌, ◌≤◌, ◌<◌, ◌+◌, ◌++◌, List, length, Some, None, Ok, Err, IfOk, IfErr, true};
ghost use Rattle.std.specs.List.{slice_split, list_all};
ghost use Rattle.model_core.specs.Output.{line as line_of};
ghost use Rattle.text_script.specs.declared.fault.ScriptFault as declared_fault;
ghost use Rattle.text_script.specs.Spelling.{IsUnlessMemory};
ghost use Rattle.text_script.specs.Faults.{IsFaultUnlessMemory};
ghost use Rattle.table_text.specs.Forms.{is_writable};
ghost use Rattle.table_text.specs.Texts.{Text, most_lines as most_lines_of};
ghost use Rattle.table_text.specs.Spelling.{first_line, line_text, spelling, Spells};
ghost use Rattle.table_text.specs.Faults.{line_shape, fault_of_shape, fault_from, first_fault};

use crate::line::TableLine;
use crate::row::{line_of_row, row_of};
use crate::text::TableText;
use crate::version::{Version, most_lines, version_of};
use std::alloc::Global;
use text_script::ScriptFault;
use text_script::split::split_once;

// The greatest count of bytes of a text.
pub(crate) const MAX_BYTES: usize = 16_777_216;

// Reads a line behind the first, and so many more.
fn read_line(version: Version, before: u32, text: &[u8]) -> Result<TableLine, ScriptFault>
    requires { before ≤ most_lines_of version }
    ensures text { IfOk result (λ l. text.now ≡ line_text l) }
    ensures fits { IfOk result (λ l. is_writable l ≡ true) }
    ensures few { IfOk result (λ _. before < most_lines_of version) }
    ensures fault { IfErr result (λ e. fault_of_shape (most_lines_of version) (before + 2) before (line_shape text.now) ≡ Some e) }
{
    let line = before + 2;
    match row_of(text) {
        Some((word, numbers)) => {
            line_of_row(word, numbers.as_slice(), most_lines(version), line, before)
        }
        None => Err(ScriptFault::Syntax { line }),
    }
}

// The lines that stand behind the first one.
fn read_lines(alloc: Global, version: Version, behind: &[u8]) -> Result<TableText, ScriptFault>
    requires { length behind.now ≤ 16777216 }
    ensures found { IfOk result (λ t. line_of (first_line version) ++ behind.now ≡ spelling t) }
    ensures writable { IfOk result (λ t. list_all is_writable t.lines ≡ true) }
    ensures few { IfOk result (λ t. length t.lines ≤ most_lines_of t.version) }
    ensures fault { IfErr result (λ e. IsFaultUnlessMemory e (fault_from (most_lines_of version) 0 (slice_split (λ b. b == 10) behind.now))) }
{
    let mut lines = TableText::new(alloc, version);
    let mut before: u32 = 0;
    let mut rest = behind;
    'lines: while let Some((text, tail)) = split_once(rest, b'\n') {
        match read_line(version, before, text) {
            Ok(line) => {
                if lines.push(line).is_err() {
                    return Err(ScriptFault::Memory);
                }
            }
            Err(fault) => return Err(fault),
        }
        rest = tail;
        before += 1;
    }
    if rest.is_empty() {
        Ok(lines)
    } else {
        Err(ScriptFault::Syntax { line: before + 2 })
    }
}

// The lines of a text, or its first fault.
fn text_or_fault(alloc: Global, bytes: &[u8]) -> Result<TableText, ScriptFault>
    ensures found { IfOk result (λ t. Spells t bytes.now) }
    ensures fault { IfErr result (λ e. IsFaultUnlessMemory e (first_fault bytes.now)) }
{
    if MAX_BYTES < bytes.len() {
        return Err(ScriptFault::TooLong {
            bytes: bytes.len() as u64,
        });
    }
    let Some((first, behind)) = split_once(bytes, b'\n') else {
        return Err(ScriptFault::Syntax { line: 1 });
    };
    let Some(version) = version_of(first) else {
        return Err(ScriptFault::Syntax { line: 1 });
    };
    read_lines(alloc, version, behind)
}

/// Reads the text of a table: the line `table 1` and at most 10,000 lines behind it, or `table 2` and at most 199,984. Every
/// line ends with a line feed.
///
/// A text that is refused is told by its first fault. Only want of memory comes without a cause in the bytes. No fault is
/// `Order`.
pub fn read_table(alloc: Global, bytes: &[u8]) -> Result<TableText, ScriptFault>
    // What is read is spelled so.
    ensures found { IfOk result (λ t. Spells t bytes.now) }
    // What is spelled so is read, unless memory runs out.
    ensures only { (t : Text) → Spells t bytes.now → IsUnlessMemory result (Ok t) }
    // A fault is the first one of the bytes, unless memory ran out.
    ensures fault { IfErr result (λ e. IsFaultUnlessMemory e (first_fault bytes.now)) }
    // The first fault of the bytes is answered, unless memory runs out.
    ensures refused { (e : declared_fault.ScriptFault) → first_fault bytes.now ≡ Some e
        → IsUnlessMemory result (Err e) }
{
    text_or_fault(alloc, bytes)
}
