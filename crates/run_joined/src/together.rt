//! Domains of one heap that meet.
ghost use Rattle.std.specs.Prelude.{◌≡◌, ◌+◌, ◌<◌, ◌≤◌, [], true, length, vec_capacity, IfOk, IfErr};
ghost use Rattle.std.specs.List.{AllByRecursion};
ghost use Rattle.model_core.specs.History.{Legal};
ghost use Rattle.heap_rule.specs.Token.{IsIn};
ghost use Rattle.run_turns.specs.Meeting.{AreHere};
ghost use Rattle.run_joined.specs.Together.{AreOver, EndsEach, IsOneHeap, MetBelow, MetRuns, OfHeap, OfSizes};

use heap_rule::{Domain, Heap};
use run_seats::shared::SharedRun;
use run_turns::DomainRun;
use std::alloc::{AllocError, Global};
use std::marker::Model;

// Brings the domain of a run together with all these, and with those that wait behind them. There is room for all.
fn meet_below(
    heap: &Heap,
    runs: &mut Vec<SharedRun>,
    first: DomainRun,
    others: &mut Vec<Option<DomainRun>>,
    room: &mut Vec<Domain>,
) -> DomainRun
    requires first { IsIn first.token heap.now }
    requires here { OfHeap heap.now runs.old.items }
    requires others { AreHere heap.now others.old.items }
    requires empty { room.old.items ≡ [] }
    requires space { length runs.old.items + length others.old.items ≤ vec_capacity others.old }
    requires fits { length runs.old.items + length others.old.items < vec_capacity room.old }
    ensures here { IsIn result.token heap.now }
    ensures met { MetBelow heap.now first result runs.old.items runs.new.items others.old.items others.new.items }
    ensures room { vec_capacity runs.new ≡ vec_capacity runs.old }
{
    let Some(last) = runs.pop() else {
        return first.meet_all(heap, others.as_mut_slice(), room);
    };
    let (share, run) = last.into_parts();
    run.shows_faithful();
    others.push_reserved(Some(run));
    let first = meet_below(heap, runs, first, others, room);
    let Some(slot) = others.pop() else {
        unreachable!()
    };
    let Some(run) = slot else { unreachable!() };
    runs.push_reserved(SharedRun::of(share, run));
    first
}

/// Brings these domains of one heap together for a moment. There is one legal history that begins with the front of each,
/// and has no other entry of it. They all have seen it then, and are else as they were. Fails for want of memory alone,
/// and then nothing has changed.
pub fn one_history(alloc: Global, runs: &mut Vec<SharedRun>) -> Result<(), AllocError>
    requires one { IsOneHeap runs.old.items }
    requires some { 0 < length runs.old.items }
    ensures met { IfOk result (λ _. MetRuns runs.old.items runs.new.items) }
    ensures same { IfErr result (λ _. runs.new.items ≡ runs.old.items) }
{
    let mut others = Vec::with_capacity(alloc, runs.len())?;
    let mut room = Vec::with_capacity(alloc, runs.len())?;
    let Some(last) = runs.pop() else {
        unreachable!()
    };
    let (share, run) = last.into_parts();
    run.shows_faithful();
    let first = meet_below(&share, runs, run, &mut others, &mut room);
    runs.push_reserved(SharedRun::of(share, first));
    Ok(())
}

/// What domains leave that have ended. Contracts see the numbers of their heap, and one history of it.
#[derive(Drop)]
pub struct Ended {
    run: DomainRun,
}

impl Model for Ended {
    ghost use Rattle.model_core.specs.History.{Legal};
    ghost use Rattle.heap_rule.specs.Ending.{EndedHeap};
    ghost use Rattle.heap_rule.specs.Limits.{sizes_in};

    ghost Value = { EndedHeap };

    ghost view = { λ e. record { sizes = sizes_in e.run.token.config; history = e.run.token.view.seen.front } };

    ghost invariant = { λ e. Legal (sizes_in e.run.token.config) e.run.token.view.seen.front };
}

impl Ended {
    /// The history is legal for the heap's numbers of domains, minor words and pools.
    pub fn shows_legal(&self)
        ensures { Legal self.now.sizes self.now.history }
    {
        let _run = &self.run;
    }
}

/// Takes domains of one heap back whose traces have ended. The history has of each exactly the commands that it made and
/// the replies that it was given, and its end. The heap goes with the last of its domains. Fails for want of memory alone,
/// and then they are given up.
pub fn end_all(alloc: Global, runs: Vec<SharedRun>) -> Result<Ended, AllocError>
    requires one { IsOneHeap runs.items }
    requires some { 0 < length runs.items }
    requires over { AreOver runs.items }
    ensures legal { IfOk result (λ e. Legal e.sizes e.history) }
    ensures sizes { IfOk result (λ e. OfSizes e.sizes runs.items) }
    ensures ends { IfOk result (λ e. EndsEach e.sizes e.history runs.items) }
{
    let mut runs = runs;
    one_history(alloc, &mut runs)?;
    let Some(last) = runs.pop() else {
        unreachable!()
    };
    let (_share, run) = last.into_parts();
    Ok(Ended { run })
}
