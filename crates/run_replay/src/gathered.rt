//! The runs of one heap.
ghost use Rattle.std.specs.Prelude.{◌≡◌, ◌<◌, ◌≤◌, ℕ, [], false, map, length, slice_get, vec_capacity, IfOk, None, Some};
ghost use Rattle.std.specs.List.{AllByRecursion};
ghost use Rattle.run_replay.specs.Ends.{IsThere, MayGather, TakenApart};
ghost use Rattle.run_replay.specs.Gathered.{HasRun, IsGathered};
ghost use Rattle.run_turns.specs.Runs.{IsRun, RunView};

use crate::meeting::meet;
use heap_rule::{Domain, Heap};
use run_turns::DomainRun;
use std::alloc::{AllocError, Global};
use std::marker::Model;

// The runs, each at a place.
fn slots_of(alloc: Global, runs: Vec<DomainRun>) -> Result<Vec<Option<DomainRun>>, AllocError>
    ensures items { IfOk result (λ slots. slots.items ≡ map Some runs.items) }
    ensures are { IfOk result (λ slots. AllByRecursion IsRun runs.items) }
{
    let mut slots = Vec::with_capacity(alloc, runs.len())?;
    'runs: for run in runs {
        run.shows_faithful();
        slots.push_reserved(Some(run));
    }
    Ok(slots)
}

// The runs at their places, in room that was taken before.
fn runs_of(slots: Vec<Option<DomainRun>>, room: Vec<DomainRun>) -> Vec<DomainRun>
    requires filled { AllByRecursion IsThere slots.items }
    requires empty { room.items ≡ [] }
    requires room { length slots.items ≤ vec_capacity room }
    ensures { map Some result.items ≡ slots.items }
{
    let mut runs = room;
    'slots: for slot in slots {
        match slot {
            Some(run) => runs.push_reserved(run),
            None => unreachable!(),
        }
    }
    runs
}

/// The runs of all domains of one heap, which their holder drives in any order. Contracts see them, the heap,
/// and whether a complete collection is made in the pause that domain 0 leads.
#[derive(Drop)]
pub struct Gathered {
    pub(crate) heap: Heap,
    // The run of each domain, at its place. All are there between any two calls.
    pub(crate) runs: Vec<Option<DomainRun>>,
    // Where all domains meet. It is empty between any two calls.
    pub(crate) meeting: Vec<Domain>,
    pub(crate) complete: bool,
}

impl Model for Gathered {
    ghost use Rattle.std.specs.Prelude.{length, vec_capacity};
    ghost use Rattle.run_replay.specs.Gathered.{GatheredView, HasRoom, IsGathered};

    ghost Value = { GatheredView };

    ghost view = { λ g. record { heap = g.heap; runs = g.runs.items; complete = g.complete } };

    ghost invariant = { λ g. IsGathered (record { heap = g.heap; runs = g.runs.items; complete = g.complete }) × HasRoom (length g.runs.items) g.meeting.items (vec_capacity g.meeting) };
}

impl Gathered {
    /// Gathers the runs of all domains of a heap, in the order of their domains. Each is of commands that were
    /// all listed, its domain runs, it has asked for no pause, no collection goes on or has left garbage, and no command
    /// of it may be answered `full`. The heap has at least twice as many pools as the commands may use, and two more than
    /// twice the reserve of promotion. Room for the runs, and for a meeting, is taken here. Fails for want of memory
    /// alone, and then the heap and its runs are given up.
    pub fn gather(alloc: Global, heap: Heap, runs: Vec<DomainRun>) -> Result<Gathered, AllocError>
        requires may { MayGather heap runs.items }
        ensures { IfOk result (λ g. g ≡ record { heap = heap; runs = map Some runs.items; complete = false }) }
    {
        let meeting = Vec::with_capacity(alloc, runs.len() + 1)?;
        let slots = slots_of(alloc, runs)?;
        Ok(Gathered {
            heap,
            runs: slots,
            meeting,
            complete: false,
        })
    }

    /// The heap, and the runs in the order of their domains, in room that was taken before. All domains run.
    /// They are as they were, but for what they have seen of the history. In each history with which the heap
    /// may end the domains have the replies that they have in one that they may have shared here.
    pub fn apart(self, room: Vec<DomainRun>) -> (Heap, Vec<DomainRun>)
        requires running { (d : ℕ) (r : RunView) → HasRun self.runs d r → r.left ≡ None }
        requires empty { room.items ≡ [] }
        requires room { length self.runs ≤ vec_capacity room }
        ensures heap { result.0 ≡ self.heap }
        ensures apart { TakenApart self result.1.items }
    {
        let Gathered {
            heap,
            runs,
            meeting,
            complete: _,
        } = self;
        let mut runs = runs;
        let mut meeting = meeting;
        let _limits = heap.config();
        meet(&heap, runs.as_mut_slice(), &mut meeting);
        let runs = runs_of(runs, room);
        (heap, runs)
    }

    /// There is a run for each domain of the heap, at its place, and of each it is known what it keeps.
    pub fn shows_whole(&self)
        ensures { IsGathered self.now }
    {
        let _heap = &self.heap;
    }

    // The run of the domain with this number.
    pub(crate) fn run(&self, at: usize) -> &DomainRun
        requires inside { at < length self.now.runs }
        ensures { HasRun self.now.runs at result.now }
    {
        match &self.runs[at] {
            Some(run) => run,
            None => unreachable!(),
        }
    }
}
