// Reads the text of a table for several domains.
ghost use Rattle.std.specs.Prelude.{◌≡◌, ◌==◌, ◌≤◌, length, Some, Ok, Err, IfOk, IfErr, sum_by};
ghost use Rattle.std.specs.List.{slice_split};
ghost use Rattle.text_script.specs.declared.fault.ScriptFault as declared_fault;
ghost use Rattle.text_script.specs.Spelling.{IsUnlessMemory};
ghost use Rattle.text_script.specs.Faults.{IsFaultUnlessMemory};
ghost use Rattle.table_text.specs.Sections.Spelling.{Sections, SpellsSections};
ghost use Rattle.table_text.specs.Sections.Faults.{end_fault, fault_from, first_sections_fault, place_in, start};
ghost use Rattle.table_text.specs.Sections.Steps.{SpellsBehind};

use crate::read::MAX_BYTES;
use crate::sections::step::take_text;
use crate::sections::text::SectionsText;
use std::alloc::Global;
use text_script::ScriptFault;
use text_script::split::split_once;

// The end of the text: nothing stands behind the last line feed, and each domain has a section.
fn end_of(domains: u32, sections: &SectionsText, rest: &[u8]) -> Result<(), ScriptFault>
    requires few { length sections.now ≤ 8 }
    requires room { sum_by length sections.now ≤ 199984 }
    ensures fine { IfOk result (λ _. end_fault domains (place_in sections.now) rest.now ≡ None) }
    ensures fault { IfErr result (λ e. end_fault domains (place_in sections.now) rest.now ≡ Some e) }
{
    let line = sections.next_line();
    if !rest.is_empty() {
        return Err(ScriptFault::Syntax { line });
    }
    if sections.len() != domains as usize {
        return Err(ScriptFault::Order { line });
    }
    Ok(())
}

// The sections that stand behind the first line.
fn read_behind(alloc: Global, domains: u32, behind: &[u8]) -> Result<SectionsText, ScriptFault>
    requires { domains ≤ 8 }
    ensures found { IfOk result (λ s. SpellsBehind domains s behind.now) }
    ensures fault { IfErr result (λ e. IsFaultUnlessMemory e (fault_from domains start (slice_split (λ b. b == 10) behind.now))) }
{
    let mut sections = SectionsText::new(alloc);
    let mut rest = behind;
    'lines: while let Some((text, tail)) = split_once(rest, b'\n') {
        if let Err(fault) = take_text(alloc, domains, &mut sections, text) {
            return Err(fault);
        }
        rest = tail;
    }
    match end_of(domains, &sections, rest) {
        Ok(()) => Ok(sections),
        Err(fault) => Err(fault),
    }
}

// The sections of a text, or its first fault.
fn sections_or_fault(alloc: Global, domains: u32, bytes: &[u8]) -> Result<SectionsText, ScriptFault>
    requires { domains ≤ 8 }
    ensures found { IfOk result (λ s. SpellsSections domains s bytes.now) }
    ensures fault { IfErr result (λ e. IsFaultUnlessMemory e (first_sections_fault domains bytes.now)) }
{
    if MAX_BYTES < bytes.len() {
        return Err(ScriptFault::TooLong {
            bytes: bytes.len() as u64,
        });
    }
    let Some((first, behind)) = split_once(bytes, b'\n') else {
        return Err(ScriptFault::Syntax { line: 1 });
    };
    if first != b"table 2".as_slice() {
        return Err(ScriptFault::Syntax { line: 1 });
    }
    read_behind(alloc, domains, behind)
}

/// Reads the text of a table for so many domains: the line `table 2`, and for each domain in order the line `domain d`
/// and the lines of its section, none of them `count`. There are at most 199,984 lines in all sections. Every line ends
/// with a line feed.
///
/// A text that is refused is told by its first fault. Only want of memory comes without a cause in the bytes. A heading that
/// is missing or out of its turn is `Order`, as is a line before the first.
pub fn read_sections(alloc: Global, domains: u32, bytes: &[u8]) -> Result<SectionsText, ScriptFault>
    requires { domains ≤ 8 }
    // What is read is spelled so.
    ensures found { IfOk result (λ s. SpellsSections domains s bytes.now) }
    // What is spelled so is read, unless memory runs out.
    ensures only { (s : Sections) → SpellsSections domains s bytes.now → IsUnlessMemory result (Ok s) }
    // A fault is the first one of the bytes, unless memory ran out.
    ensures fault { IfErr result (λ e. IsFaultUnlessMemory e (first_sections_fault domains bytes.now)) }
    // The first fault of the bytes is answered, unless memory runs out.
    ensures refused { (e : declared_fault.ScriptFault) → first_sections_fault domains bytes.now ≡ Some e
        → IsUnlessMemory result (Err e) }
{
    sections_or_fault(alloc, domains, bytes)
}
