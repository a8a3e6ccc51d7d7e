//! A section of a text that a thread of its own reads.
ghost use Rattle.std.specs.Prelude.{◌≡◌, ◌≤◌, ◌<◌, ℕ, None, IfOk};
ghost use Rattle.camlheap_run.specs.Readers.{HasRead, IsReader, SameSection, same_further, same_section};

use model_core::command::Command;
use run_threads::{Trace, Went};
use std::alloc::Global;
use text_script::{NoSection, Version, read_section};

/// Where the lines of a section stand in a text, and what they were read as.
#[derive(Drop)]
pub(crate) struct Reader {
    pub(crate) alloc: Global,
    pub(crate) version: Version,
    pub(crate) domains: u32,
    pub(crate) number: u32,
    pub(crate) start: usize,
    pub(crate) end: usize,
    pub(crate) read: Option<Result<Vec<Command>, NoSection>>,
}

impl Trace<Vec<u8>> for Reader {
    ghost shares = { λ text r. IsReader text.items r };

    ghost follows = { SameSection };

    ghost is_over = { HasRead };

    ghost index = { λ _. 0 };

    ghost has_more = { λ _. ⊥ };

    ghost follows_itself = { same_section };

    ghost follows_on = { same_further };

    fn number(&self, shared: &Vec<u8>) -> u32 {
        let _shared = shared;
        self.number
    }

    fn next_index(&self) -> u32 {
        0
    }

    fn has_next(&self) -> bool {
        false
    }

    fn turn(&mut self, shared: &Vec<u8>) -> Went {
        if self.read.is_none() {
            let lines = &shared.as_slice()[self.start..self.end];
            self.read = Some(read_section(self.alloc, self.version, self.domains, lines));
        }
        Went::Ended
    }
}
