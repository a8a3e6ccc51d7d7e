//! What was read: the lines of each section.
ghost use Rattle.std.specs.Prelude.{◌≡◌, ◌≤◌, ◌<◌, ◌+◌, ◌++◌, ◌∷◌, [], length, map, sum_by, OnOk};
ghost use Rattle.text_script.specs.Script.{with_last};
ghost use Rattle.table_text.specs.Sections.Faults.{number_at, place_in};

use crate::line::TableLine;
use std::alloc::{AllocError, Global};
use std::marker::Model;

/// The lines of a table's text for several domains: those of each domain's section, in the order of the domains.
#[derive(Drop)]
pub struct SectionsText {
    sections: Vec<Vec<TableLine>>,
    lines: u32,
}

impl Model for SectionsText {
    ghost use Rattle.std.specs.Prelude.{◌≡◌, length, map, sum_by};
    ghost use Rattle.table_text.specs.Sections.Spelling.{Sections};

    ghost Value = { Sections };

    ghost view = { λ t. map (λ v. v.items) t.sections.items };

    ghost invariant = { λ t. t.lines ≡ sum_by length (map (λ v. v.items) t.sections.items) };
}

impl SectionsText {
    /// How many sections there are.
    pub fn len(&self) -> usize
        ensures { result ≡ length self.now }
    {
        self.sections.len()
    }

    /// The lines of each section.
    pub fn into_sections(self) -> Vec<Vec<TableLine>>
        ensures { map (λ v. v.items) result.items ≡ self }
    {
        self.sections
    }

    // A text without sections.
    pub(crate) fn new(alloc: Global) -> SectionsText
        ensures { result ≡ [] }
    {
        SectionsText {
            sections: Vec::new(alloc),
            lines: 0,
        }
    }

    // How many lines all sections have.
    pub(crate) fn lines(&self) -> u32
        ensures { result ≡ sum_by length self.now }
    {
        self.lines
    }

    // The number of the line that is read next.
    pub(crate) fn next_line(&self) -> u32
        requires few { length self.now ≤ 8 }
        requires room { sum_by length self.now ≤ 199984 }
        ensures { result ≡ number_at (place_in self.now) }
    {
        self.sections.len() as u32 + self.lines + 2
    }

    // A further section, which is empty.
    pub(crate) fn open(&mut self, alloc: Global) -> Result<(), AllocError>
        ensures { OnOk result (self.new ≡ self.old ++ [] ∷ []) }
    {
        self.sections.push(Vec::new(alloc))?;
        Ok(())
    }

    // A line at the end of the last section.
    pub(crate) fn push(&mut self, line: TableLine) -> Result<(), AllocError>
        requires some { 0 < length self.old }
        requires room { sum_by length self.old < 199984 }
        ensures { OnOk result (self.new ≡ with_last self.old line) }
    {
        let last = self.sections.len() - 1;
        self.sections[last].push(line)?;
        self.lines += 1;
        Ok(())
    }
}
