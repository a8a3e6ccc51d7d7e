//! All sections of a table, from the start of their heap to its end.
ghost use Rattle.std.specs.Prelude.{◌≡◌, ◌↔◌, ◌<◌, ℕ, Err, IfOk, None, Some, length, map};
ghost use Rattle.heap_rule.specs.declared.config.StartFault.TheVariants as fault;
ghost use Rattle.heap_rule.specs.Limits.{first_outside, sizes_in};
ghost use Rattle.table_sections.specs.Preparing.{AllFresh};
ghost use Rattle.table_sections.specs.Together.{SectionsFit, TogetherRuns};

use crate::preparing::prepare_all;
use crate::running::{resume_all, run_all, tasks_of};
use heap_rule::{Config, Ended, StartFault};
use run_seats::{Resting, Seats};
use std::alloc::Global;
use std::sync::Wait;
use std::thread::Threads;
use table_text::TableLine;
use table_text::machine::LineReply;

/// The replies of each section, in order, and the heap that has ended.
#[derive(Drop)]
pub struct Together {
    pub replies: Vec<Vec<LineReply>>,
    pub ended: Ended,
}

// Makes the sections on the seats of a heap, and ends it. None where memory is wanted.
fn run_on<R: Threads + Wait + Sync>(
    rt: &R,
    alloc: Global,
    config: Config,
    seats: Seats,
    all: Vec<Resting>,
    sections: Vec<Vec<TableLine>>,
) -> Result<Together, StartFault>
    requires config { config ≡ seats.heap.config }
    requires inside { first_outside config ≡ None }
    requires fits { SectionsFit config (map (λ ls. ls.items) sections.items) }
    requires fresh { AllFresh seats 0 all.items }
    requires len { length all.items ≡ length sections.items }
    ensures outside { (k : ℕ) → result ≡ Err (fault.Config k) → ⊥ }
    ensures sizes { IfOk result (λ t. t.ended.sizes ≡ sizes_in config) }
    ensures runs { IfOk result (λ t. TogetherRuns t.ended.sizes (map (λ ls. ls.items) sections.items)
        (map (λ rs. rs.items) t.replies.items) t.ended.history) }
{
    let replies = Vec::with_capacity(alloc, sections.len())?;
    let back = Vec::with_capacity(alloc, sections.len())?;
    let (_places, ready) = prepare_all(rt, alloc, &seats, config, all)?;
    let tasks = tasks_of(alloc, ready, sections)?;
    let ran = run_all(rt, &seats, config, tasks)?;
    let (replies, back) = resume_all(rt, &seats, ran, replies, back);
    let ended = seats.stop(rt, alloc, back)?;
    Ok(Together { replies, ended })
}

/// Makes all sections of a table, each on a domain of its own, in a thread of its own, on one weak map and slots that all share,
/// and ends the heap. There are as many domains as sections, and room for each.
/// Want of memory may come behind lines that were made.
///
/// All is one history, in which the map is shared from the entry on that made it: the lines of each section are answered in order
/// between fronts of it. What the map binds and what the slots hold goes from front to front: an entry sets one key, or keys are
/// lost that no domain's register holds. `Config(k)` names the first of the heap's numbers outside its limit; else want of memory alone refuses.
pub fn run_sections<R: Threads + Wait + Sync>(
    rt: &R,
    alloc: Global,
    config: Config,
    sections: Vec<Vec<TableLine>>,
) -> Result<Together, StartFault>
    requires fits { SectionsFit config (map (λ ls. ls.items) sections.items) }
    ensures outside { (k : ℕ) → (result ≡ Err (fault.Config k)) ↔ (first_outside config ≡ Some k) }
    ensures sizes { IfOk result (λ t. t.ended.sizes ≡ sizes_in config) }
    ensures runs { IfOk result (λ t. TogetherRuns t.ended.sizes (map (λ ls. ls.items) sections.items)
        (map (λ rs. rs.items) t.replies.items) t.ended.history) }
{
    let (seats, all) = Seats::make(rt, alloc, config)?;
    run_on(rt, alloc, config, seats, all, sections)
}
