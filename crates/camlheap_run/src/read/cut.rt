//! A text is cut at its headings.
ghost use Rattle.std.specs.Prelude.{◌≡◌, ◌≢◌, ◌≤◌, ◌<◌, ◌++◌, ℕ, length, map, drop, IfSome, IfOk};
ghost use Rattle.model_core.specs.Output.{line};
ghost use Rattle.text_script.specs.Forms.{first_line};
ghost use Rattle.text_script.specs.Spelling.{heading_text};
ghost use Rattle.std.specs.List.{AllByRecursion};
ghost use Rattle.text_script.specs.Sections.{headed};
ghost use Rattle.camlheap_run.specs.Readers.{IsCut, IsReaderOf, lines_of};

use crate::read::reader::Reader;
use crate::read::texts::MOST_READ;
use memchr::memmem;
use std::alloc::{AllocError, Global};
use text_script::{Line, Version, print_heading};

/// A text's version, and a reader of each of its sections.
#[derive(Drop)]
pub(crate) struct Cut {
    pub(crate) version: Version,
    pub(crate) readers: Vec<Reader>,
}

// Where a text goes on behind a part of it that begins at a place, if it does.
fn behind(text: &[u8], at: usize, part: &[u8]) -> Option<usize>
    requires { at ≤ length text.now }
    ensures place { IfSome result (λ end. (at ≤ end) × (end ≤ length text.now)) }
    ensures part { IfSome result (λ end. drop at text.now ≡ part.now ++ drop end text.now) }
{
    if text.len() - at < part.len() {
        return None;
    }
    let end = at + part.len();
    if &text[at..end] == part {
        Some(end)
    } else {
        None
    }
}

// Where a text goes on behind the first line of a version, if it has that.
fn behind_first_line(text: &[u8], version: Version) -> Option<usize>
    ensures place { IfSome result (λ end. end ≤ length text.now) }
    ensures line { IfSome result (λ end. text.now ≡ line (first_line version) ++ drop end text.now) }
{
    let end = behind(text, 0, version.first_line())?;
    behind(text, end, b"\n")
}

// Where a text goes on behind the heading of a section that begins at a place, if one does.
fn behind_heading(text: &[u8], at: usize, number: u32) -> Option<usize>
    requires { at ≤ length text.now }
    ensures place { IfSome result (λ end. (at < end) × (end ≤ length text.now)) }
    ensures heading { IfSome result (λ end. drop at text.now ≡ line (heading_text number) ++ drop end text.now) }
{
    let mut heading: Line = [0; 64];
    let length = print_heading(number, &mut heading);
    behind(text, at, &heading[..length])
}

// Where the next line begins that looks as a heading, behind a line feed that stands before a place, or where the text ends.
fn next_heading(text: &[u8], at: usize) -> usize
    requires { (1 ≤ at) × (at ≤ length text.now) }
    ensures { (at ≤ result) × (result ≤ length text.now) }
{
    match memmem::find(&text[at - 1..], b"\ndomain ") {
        Some(before) => at + before,
        None => text.len(),
    }
}

// The version that the first line of a text names, and where the text goes on behind it, unless it is one with spawns.
fn first_of(text: &[u8]) -> Option<(Version, usize)>
    ensures unspawned { IfSome result (λ p. p.0 ≢ Version.Three) }
    ensures place { IfSome result (λ p. p.1 ≤ length text.now) }
    ensures line { IfSome result (λ p. text.now ≡ line (first_line p.0) ++ drop p.1 text.now) }
{
    match behind_first_line(text, Version::One) {
        Some(end) => Some((Version::One, end)),
        None => {
            let end = behind_first_line(text, Version::Two)?;
            Some((Version::Two, end))
        }
    }
}

// A reader of each section that stands behind the first line, in order, where the text is cut at its headings.
fn readers_of(
    alloc: Global,
    version: Version,
    domains: u32,
    text: &[u8],
    first: usize,
) -> Result<Option<Vec<Reader>>, AllocError>
    requires some { 1 ≤ domains }
    requires few { domains ≤ 8 }
    requires first { first ≤ length text.now }
    requires short { length text.now ≤ 16777216 }
    ensures each { IfOk result (λ o. IfSome o (λ readers. AllByRecursion (IsReaderOf version domains text.now) readers.items)) }
    ensures few { IfOk result (λ o. IfSome o (λ readers. length readers.items ≤ domains)) }
    ensures cut { IfOk result (λ o. IfSome o (λ readers. drop first text.now ≡ headed 0 (map (lines_of text.now) readers.items))) }
{
    let mut readers = Vec::new(alloc);
    let mut at = first;
    'sections: for number in 0..domains {
        if at == text.len() {
            break 'sections;
        }
        let Some(start) = behind_heading(text, at, number) else {
            return Ok(None);
        };
        let end = next_heading(text, start);
        readers.push(Reader {
            alloc,
            version,
            domains,
            number,
            start,
            end,
            read: None,
        })?;
        at = end;
    }
    if at == text.len() {
        Ok(Some(readers))
    } else {
        Ok(None)
    }
}

// Cuts a text at its headings, if it is one of a version without spawns that isn't too long.
pub(crate) fn cut_of(alloc: Global, domains: u32, text: &[u8]) -> Result<Option<Cut>, AllocError>
    requires some { 1 ≤ domains }
    requires few { domains ≤ 8 }
    ensures { IfOk result (λ o. IfSome o (IsCut domains text.now)) }
{
    if MOST_READ <= text.len() {
        return Ok(None);
    }
    let Some((version, first)) = first_of(text) else {
        return Ok(None);
    };
    match readers_of(alloc, version, domains, text, first)? {
        Some(readers) => Ok(Some(Cut { version, readers })),
        None => Ok(None),
    }
}
