//! Runs whose threads print what a report has of them.
ghost use Rattle.std.specs.Prelude.{◌≡◌, ◌≢◌, ◌<◌, ◌≤◌, [], map, length, flat_map, vec_capacity, true, IfOk};
ghost use Rattle.std.specs.List.{AllByRecursion};
ghost use Rattle.heap_rule.specs.Token.{IsIn};
ghost use Rattle.run_turns.specs.Runs.{GoesOn};
ghost use Rattle.text_ends.specs.Faults.{HasCause};
ghost use Rattle.text_ends.specs.Writing.{Writes};
ghost use Rattle.camlheap_run.specs.Telling.{GoesOnTelling, IsBlank, IsTeller, Tells, run_of, teller_text, tells_further, tells_nowhere};

use crate::write::report::{Report, write_run};
use crate::write::text::Text;
use heap_rule::Heap;
use run_threads::{Trace, Went};
use run_turns::DomainRun;
use std::alloc::{AllocError, Global};
use text_ends::{Failed, Sink, write_all};

// The longest line of a reply that a heap gives: `int -` and 19 digits.
const LONGEST_LINE: usize = 25;

// What else a report has of a domain: a heading, or a line of figures.
const LONGEST_HEADING: usize = 128;

/// Who tells what a report has of a run.
#[derive(Clone, Copy, Debug, PartialEq, Eq)]
pub(crate) enum Telling {
    /// Nobody so far.
    Later,
    /// Its text has all of it.
    Told,
    /// The text had no room for it, so the caller is to write it.
    Untold,
}

/// A run, and the text of what a report has of it. Its thread prints that once its trace has ended.
#[derive(Drop)]
pub(crate) struct Teller {
    run: DomainRun,
    report: Report,
    text: Text,
    telling: Telling,
}

// How long the text of what a report has of a run is at most.
fn room_of(report: Report, run: &DomainRun) -> usize {
    match report {
        Report::Replies => {
            let replies = run
                .commands_left()
                .saturating_add(run.domain().finals_room());
            replies
                .saturating_mul(LONGEST_LINE)
                .saturating_add(LONGEST_HEADING)
        }
        Report::Summary => LONGEST_HEADING,
    }
}

impl Teller {
    // A run of which nothing is told so far. The room for its text is taken here.
    fn make(alloc: Global, report: Report, run: DomainRun) -> Result<Teller, AllocError>
        ensures run { IfOk result (λ t. t.run ≡ run) }
        ensures blank { IfOk result (IsBlank report) }
    {
        let room = room_of(report, &run);
        Ok(Teller {
            run,
            report,
            text: Text::with_room(alloc, room)?,
            telling: Telling::Later,
        })
    }

    // Prints what the report has of the run, which is over.
    fn tell(&mut self)
        requires over { self.old.run.ended ≡ true }
        requires blank { self.old.text.bytes.items ≡ [] }
        ensures run { self.new.run ≡ self.old.run }
        ensures report { self.new.report ≡ self.old.report }
        ensures told { Tells self.new.telling self.new }
        ensures done { self.new.telling ≢ Telling.Later }
    {
        self.telling = match write_run(&mut self.text, self.report, &self.run) {
            Ok(()) => Telling::Told,
            Err(Failed) => Telling::Untold,
        };
    }
}

impl Trace<Heap> for Teller {
    ghost shares = { λ h t. IsIn t.run.token h × IsTeller t };

    ghost follows = { GoesOnTelling };

    ghost is_over = { λ t. t.run.ended ≡ true };

    ghost index = { λ t. t.run.next };

    ghost has_more = { λ t. t.run.next < length t.run.commands };

    ghost follows_itself = { tells_nowhere };

    ghost follows_on = { tells_further };

    fn number(&self, shared: &Heap) -> u32 {
        self.run.number(shared)
    }

    #[inline(always)]
    fn next_index(&self) -> u32 {
        self.run.next_index()
    }

    #[inline(always)]
    fn has_next(&self) -> bool {
        self.run.has_next()
    }

    #[tactic(auto, using(crate::proofs::TellingLemmas::tells_still))]
    #[inline(always)]
    fn turn(&mut self, shared: &Heap) -> Went {
        let went = Trace::turn(&mut self.run, shared);
        if matches!(went, Went::Idle | Went::Ended) && self.telling == Telling::Later {
            self.tell();
        }
        went
    }
}

/// Tellers of runs, and room for these when they come back.
#[derive(Drop)]
pub(crate) struct Tellers {
    pub(crate) tellers: Vec<Teller>,
    pub(crate) room: Vec<DomainRun>,
}

// A teller of each run, in order, and room for the runs when they come back. All memory of the report is taken here.
pub(crate) fn tellers_of(
    alloc: Global,
    report: Report,
    runs: Vec<DomainRun>,
) -> Result<Tellers, AllocError>
    ensures runs { IfOk result (λ t. map run_of t.tellers.items ≡ runs.items) }
    ensures blank { IfOk result (λ t. AllByRecursion (IsBlank report) t.tellers.items) }
    ensures empty { IfOk result (λ t. t.room.items ≡ []) }
    ensures room { IfOk result (λ t. length runs.items ≤ vec_capacity t.room) }
{
    let room = Vec::with_capacity(alloc, runs.len())?;
    let mut tellers = Vec::with_capacity(alloc, runs.len())?;
    'runs: for run in runs {
        tellers.push(Teller::make(alloc, report, run)?)?;
    }
    Ok(Tellers { tellers, room })
}

// The runs of tellers, in order, in room that was taken before.
pub(crate) fn runs_of(tellers: Vec<Teller>, room: Vec<DomainRun>) -> Vec<DomainRun>
    requires empty { room.items ≡ [] }
    requires room { length tellers.items ≤ vec_capacity room }
    ensures { result.items ≡ map run_of tellers.items }
{
    let mut runs = room;
    'tellers: for teller in tellers {
        let Teller { run, .. } = teller;
        runs.push_reserved(run);
    }
    runs
}

// Writes what a report has of a run that is over.
fn write_teller<K: Sink>(out: &mut K, teller: &Teller) -> Result<(), Failed>
    requires { IsTeller teller.now }
    ensures cause { HasCause (K.faults out.old) (K.faults out.new) result }
    ensures bytes { Writes (K.written out.old) (K.written out.new) result (teller_text teller.now) }
{
    match teller.telling {
        Telling::Told => write_all(out, teller.text.bytes()),
        Telling::Later | Telling::Untold => write_run(out, teller.report, &teller.run),
    }
}

// Writes what a report has of runs that are over, in order: the text of each, and where there is none line by line.
pub(crate) fn write_tellers<K: Sink>(out: &mut K, tellers: &[Teller]) -> Result<(), Failed>
    requires { AllByRecursion IsTeller tellers.now }
    ensures cause { HasCause (K.faults out.old) (K.faults out.new) result }
    ensures bytes { Writes (K.written out.old) (K.written out.new) result (flat_map teller_text tellers.now) }
{
    'tellers: for teller in tellers {
        write_teller(out, teller)?;
    }
    Ok(())
}
