//! A script whose sections are read in threads.
ghost use Rattle.std.specs.Prelude.{◌≡◌, ◌≤◌, map, IfSome, IfOk};
ghost use Rattle.text_script.specs.Spelling.{Spells};
ghost use Rattle.text_script.specs.declared.version.Version.TheVariants.{Three};
ghost use Rattle.camlheap_run.specs.Readers.{read_of, whole};

use crate::read::cut::{Cut, cut_of};
use crate::read::reader::Reader;
use model_core::command::Command;
use run_threads::drive;
use std::alloc::{AllocError, Global};
use std::sync::Wait;
use std::thread::Threads;
use text_ends::NoGate;
use text_script::{NoSection, Script, join_sections};

// The sections that readers have read, in order, if each has read its own.
fn sections_of(alloc: Global, readers: Vec<Reader>) -> Result<Option<Vec<Vec<Command>>>, AllocError>
    ensures { IfOk result (λ o. IfSome o (λ sections. map whole sections.items ≡ map read_of readers.items)) }
{
    let mut sections = Vec::new(alloc);
    'readers: for reader in readers {
        let Reader { read, .. } = reader;
        match read {
            Some(Ok(section)) => sections.push(section)?,
            Some(Err(NoSection::Memory)) => return Err(AllocError),
            _ => return Ok(None),
        }
    }
    Ok(Some(sections))
}

// Reads the sections of a script without spawns, each in a thread of its own. It answers none where the text isn't cut at its
// headings or is refused, and doesn't tell why: then the text is to be read as a whole.
pub(crate) fn read_together<R: Threads + Wait + Sync>(
    rt: &R,
    alloc: Global,
    domains: u32,
    text: &Vec<u8>,
) -> Result<Option<Script>, AllocError>
    requires { (1 ≤ domains) × (domains ≤ 8) }
    ensures { IfOk result (λ o. IfSome o (λ s. Spells Three domains s text.now.items)) }
{
    let Some(Cut { version, readers }) = cut_of(alloc, domains, text.as_slice())? else {
        return Ok(None);
    };
    let readers = drive(rt, text, readers, &NoGate);
    let Some(sections) = sections_of(alloc, readers)? else {
        return Ok(None);
    };
    match join_sections(alloc, version, domains, sections) {
        Ok(script) => Ok(Some(script)),
        Err(NoSection::Memory) => Err(AllocError),
        Err(NoSection::Refused) => Ok(None),
    }
}
