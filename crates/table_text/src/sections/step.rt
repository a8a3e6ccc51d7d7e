// Reading one line of a text with sections.
ghost use Rattle.std.specs.Prelude.{◌≡◌, ◌≤◌, ◌++◌, ◌∷◌, [], length, option_map, sum_by, IfErr, IfNone, IfSome, None, OnOk, false};
ghost use Rattle.text_script.specs.Number.{clipped};
ghost use Rattle.text_script.specs.Faults.{IsFaultUnlessMemory};
ghost use Rattle.table_text.specs.Faults.{line_shape, neither, SaysRow};
ghost use Rattle.table_text.specs.Forms.{form};
ghost use Rattle.table_text.specs.Sections.Spelling.{is_count};
ghost use Rattle.table_text.specs.Sections.Faults.{heading_fault, heading_of as number_of_heading, line_fault, place_in, section_fault, shared_shape};
ghost use Rattle.table_text.specs.Sections.Steps.{AddsLine, TakesText};

use crate::form::number_at;
use crate::number::numbers_of;
use crate::row::{line_of_row, row_of};
use crate::sections::text::SectionsText;
use crate::split::first_text;
use crate::version::{Version, most_lines};
use crate::word::Word;
use arrayvec::ArrayVec;
use std::alloc::Global;
use text_script::ScriptFault;

// The number of a heading. One that is too large for 64 bits is the nearest that isn't.
fn heading_of(text: &[u8]) -> Option<i64>
    ensures { result ≡ option_map clipped (number_of_heading text.now) }
{
    let (word, rest) = first_text(text);
    if word != b"domain".as_slice() {
        return None;
    }
    let numbers = numbers_of(rest, 1)?;
    Some(number_at(numbers.as_slice(), 0))
}

// Opens the section of a heading with this number.
fn take_heading(
    alloc: Global,
    domains: u32,
    sections: &mut SectionsText,
    number: i64,
) -> Result<(), ScriptFault>
    requires domains { domains ≤ 8 }
    requires few { length sections.old ≤ domains }
    requires room { sum_by length sections.old ≤ 199984 }
    ensures fine { OnOk result (heading_fault domains (place_in sections.old) number ≡ None) }
    ensures opened { OnOk result (sections.new ≡ sections.old ++ [] ∷ []) }
    ensures fault { IfErr result (λ e. IsFaultUnlessMemory e (heading_fault domains (place_in sections.old) number)) }
{
    let line = sections.next_line();
    if number < 0 || i64::from(domains) <= number {
        return Err(ScriptFault::Range { line, which: 1 });
    }
    if number.unsigned_abs() != sections.len() as u64 {
        return Err(ScriptFault::Order { line });
    }
    match sections.open(alloc) {
        Ok(()) => Ok(()),
        Err(_) => Err(ScriptFault::Memory),
    }
}

// The word and the numbers of a line, if it is one that may stand in a section.
fn shared_row_of(text: &[u8]) -> Option<(Word, ArrayVec<i64, 2>)>
    ensures row { IfSome result (λ p. SaysRow text.now p.0 p.1.items) }
    ensures counted { IfSome result (λ p. length p.1.items ≡ length (form p.0).operands) }
    ensures shared { IfSome result (λ p. is_count p.0 ≡ false) }
    ensures none { IfNone result (shared_shape (line_shape text.now) ≡ neither) }
{
    let (word, numbers) = row_of(text)?;
    match word {
        Word::Count => None,
        _ => Some((word, numbers)),
    }
}

// Adds a line that is no heading to the last section.
fn take_line(sections: &mut SectionsText, text: &[u8]) -> Result<(), ScriptFault>
    requires few { length sections.old ≤ 8 }
    requires room { sum_by length sections.old ≤ 199984 }
    ensures added { OnOk result (AddsLine sections.old sections.new text.now) }
    ensures fault { IfErr result (λ e. IsFaultUnlessMemory e (section_fault (place_in sections.old) (shared_shape (line_shape text.now)))) }
{
    let line = sections.next_line();
    let Some((word, numbers)) = shared_row_of(text) else {
        return Err(ScriptFault::Syntax { line });
    };
    if sections.len() == 0 {
        return Err(ScriptFault::Order { line });
    }
    let most = most_lines(Version::Two);
    let added = match line_of_row(word, numbers.as_slice(), most, line, sections.lines()) {
        Ok(added) => added,
        Err(fault) => return Err(fault),
    };
    match sections.push(added) {
        Ok(()) => Ok(()),
        Err(_) => Err(ScriptFault::Memory),
    }
}

// Takes a line, or tells its fault.
pub(crate) fn take_text(
    alloc: Global,
    domains: u32,
    sections: &mut SectionsText,
    text: &[u8],
) -> Result<(), ScriptFault>
    requires domains { domains ≤ 8 }
    requires few { length sections.old ≤ domains }
    requires room { sum_by length sections.old ≤ 199984 }
    ensures taken { OnOk result (TakesText domains sections.old sections.new text.now) }
    ensures fault { IfErr result (λ e. IsFaultUnlessMemory e (line_fault domains (place_in sections.old) text.now)) }
{
    match heading_of(text) {
        Some(number) => take_heading(alloc, domains, sections, number),
        None => take_line(sections, text),
    }
}
