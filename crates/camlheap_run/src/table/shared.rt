//! Runs the sections of a table's text, each by a domain of one heap, and writes their replies.
ghost use Rattle.std.specs.Prelude.{◌≡◌, ◌<◌, ◌≤◌, ◌+◌, map, None, Option};
ghost use Rattle.heap_rule.specs.Ending.{EndedHeap};
ghost use Rattle.heap_rule.specs.Limits.{first_outside, sizes_in};
ghost use Rattle.text_ends.specs.Faults.{Rose};
ghost use Rattle.camlheap_run.specs.Outcome.{IsRunAnswer, IsWriteFault};
ghost use Rattle.camlheap_run.specs.Tables.{AreSpelled, MayHoldTable, WritesFrontOfSections, WritesSections, most_lines_of};

use crate::Status;
use crate::table::replies::write_sections;
use heap_rule::{Config, StartFault};
use model_core::state::Sizes;
use std::alloc::Global;
use std::sync::Wait;
use std::thread::Threads;
use table_sections::{Together, run_sections};
use table_text::{SectionsText, TableLine};
use text_ends::{Failed, Sink};

// How many ephemerons hold the slots that all domains share.
const SLOT_EPHEMERONS: u32 = 3;

// The most lines that a section has.
fn most_lines(sections: &[Vec<TableLine>]) -> usize
    ensures { result ≡ most_lines_of (map (λ v. v.items) sections.now) }
{
    let mut most = 0;
    'sections: for section in sections {
        most = section.len().max(most);
    }
    most
}

// How large the heap is: each domain has room for an ephemeron of each line of the longest section, and for those of the
// slots.
fn config_of(sizes: &Sizes, sections: &[Vec<TableLine>]) -> Config
    requires sizes { MayHoldTable sizes.now }
    requires text { AreSpelled sizes.now (map (λ v. v.items) sections.now) }
    ensures sizes { sizes_in result ≡ sizes.now }
    ensures limits { first_outside result ≡ None }
    ensures room { result.ephes ≡ most_lines_of (map (λ v. v.items) sections.now) + 3 }
{
    let most = most_lines(sections) as u32;
    Config {
        domains: sizes.domains,
        minor_words: sizes.minor_words,
        pools: sizes.pools,
        finals: 0,
        ephes: most + SLOT_EPHEMERONS,
    }
}

// Runs the sections of a text on one heap, each in a thread of its own, and then writes the replies.
pub(crate) fn run_together<R: Threads + Wait + Sync, K: Sink>(
    rt: &R,
    alloc: Global,
    sizes: &Sizes,
    text: SectionsText,
    out: &mut K,
) -> Status
    requires sizes { MayHoldTable sizes.now }
    requires text { AreSpelled sizes.now text }
    ensures later { K.faults out.old ≤ K.faults out.new }
    ensures done { (ended : Option EndedHeap) → result ≡ Status.Done ended → WritesSections sizes.now text ended (K.written out.old) (K.written out.new) }
    ensures cut { (ended : Option EndedHeap) → result ≡ Status.WriteFault ended → WritesFrontOfSections sizes.now text ended (K.written out.old) (K.written out.new) }
    ensures fault { (ended : Option EndedHeap) → result ≡ Status.WriteFault ended → Rose (K.faults out.old) (K.faults out.new) }
    ensures failed { K.faults out.old < K.faults out.new → IsWriteFault result }
    ensures quiet { result ≡ Status.Memory → out.new ≡ out.old }
    ensures answers { IsRunAnswer result }
{
    let sections = text.into_sections();
    let config = config_of(sizes, &sections);
    let Together { replies, ended } = match run_sections(rt, alloc, config, sections) {
        Ok(together) => together,
        Err(StartFault::Memory) => return Status::Memory,
        Err(StartFault::Config(_)) => unreachable!(),
    };
    let ended = Some(ended);
    match write_sections(out, &replies) {
        Ok(()) => Status::Done { ended },
        Err(Failed) => Status::WriteFault { ended },
    }
}
