//! What was read: a version, and the lines of a text.
ghost use Rattle.std.specs.Prelude.{◌≡◌, ◌<◌, ◌++◌, ◌∷◌, [], length, OnOk, Some, slice_get, true};
ghost use Rattle.table_text.specs.Forms.{is_writable};

use crate::line::TableLine;
use crate::version::Version;
use std::alloc::{AllocError, Global};
use std::marker::Model;

/// A table's text: its version, and the lines behind the first, in order.
#[derive(Drop)]
pub struct TableText {
    version: Version,
    lines: Vec<TableLine>,
}

impl Model for TableText {
    ghost use Rattle.std.specs.Prelude.{◌≡◌, true};
    ghost use Rattle.std.specs.List.{list_all};
    ghost use Rattle.table_text.specs.Texts.{Text};
    ghost use Rattle.table_text.specs.Forms.{is_writable};

    ghost Value = { Text };

    ghost view = { λ t. record { version = t.version; lines = t.lines.items } };

    ghost invariant = { λ t. list_all is_writable t.lines.items ≡ true };
}

impl TableText {
    /// On what the text plays.
    pub fn version(&self) -> Version
        ensures { result ≡ self.now.version }
    {
        self.version
    }

    /// How many lines there are behind the first.
    pub fn len(&self) -> usize
        ensures { result ≡ length self.now.lines }
    {
        self.lines.len()
    }

    /// Line `i`, counted from 0. Its numbers are in their ranges.
    pub fn line(&self, i: usize) -> TableLine
        requires { i < length self.now.lines }
        ensures line { Some result ≡ slice_get self.now.lines i }
        ensures fits { is_writable result ≡ true }
    {
        self.lines[i]
    }

    // A text without lines.
    pub(crate) fn new(alloc: Global, version: Version) -> TableText
        ensures version { result.version ≡ version }
        ensures empty { result.lines ≡ [] }
    {
        TableText {
            version,
            lines: Vec::new(alloc),
        }
    }

    // One line more.
    pub(crate) fn push(&mut self, line: TableLine) -> Result<(), AllocError>
        requires { is_writable line ≡ true }
        ensures version { self.new.version ≡ self.old.version }
        ensures lines { OnOk result (self.new.lines ≡ self.old.lines ++ line ∷ []) }
    {
        self.lines.push(line)?;
        Ok(())
    }
}
