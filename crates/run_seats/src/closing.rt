//! The turns by which the traces of all seats end.
ghost use Rattle.std.specs.Prelude.{◌≡◌, ◌≤◌, ◌<◌, true, [], IfOk, length, map, vec_capacity};
ghost use Rattle.std.specs.List.{AllByRecursion};
ghost use Rattle.run_turns.specs.Runs.{IsRun};
ghost use Rattle.run_seats.specs.Stopping.{AreClosedFrom, IsClosedIn, IsOver, StaysClosed, closed_on, ran_of, still_closed, token_of};

use crate::seat::Seat;
use heap_rule::{Domain, Heap};
use model_core::reply::Reply;
use run_threads::{Trace, Went};
use run_turns::DomainRun;
use run_turns::singly::{Came, turn_below};
use std::alloc::{AllocError, Global};

/// The run of a seat that gets no more command.
#[derive(Drop)]
pub struct Closing {
    run: DomainRun,
}

// One turn of a run that gets no more command.
fn close_turn(heap: &Heap, run: &mut DomainRun) -> Came
    requires here { IsClosedIn heap.now run.old }
    ensures here { IsClosedIn heap.now run.new }
    ensures stays { StaysClosed run.old run.new }
    ensures over { result ≡ Came.Ended → run.new.ended ≡ true }
{
    turn_below(heap, run)
}

// How far a trace came in a turn that came so far.
fn went(came: Came) -> Went
    ensures { result ≡ Went.Ended → came ≡ Came.Ended }
{
    match came {
        Came::On => Went::On,
        Came::Nowhere | Came::Done => Went::Nowhere,
        Came::Ended => Went::Ended,
    }
}

impl Trace<Heap> for Closing {
    ghost shares = { λ h t. IsClosedIn h t.run };

    ghost follows = { λ t u. StaysClosed t.run u.run };

    ghost is_over = { λ t. IsOver t.run };

    ghost index = { λ t. t.run.next };

    ghost has_more = { λ t. t.run.next < length t.run.commands };

    ghost follows_itself = { λ t. still_closed t.run };

    ghost follows_on = { λ t u v. closed_on t.run u.run v.run };

    fn number(&self, shared: &Heap) -> u32 {
        let _config = shared.config();
        self.run.domain().number()
    }

    fn next_index(&self) -> u32 {
        self.run.shows_faithful();
        self.run.next() as u32
    }

    fn has_next(&self) -> bool {
        self.run.has_next()
    }

    fn turn(&mut self, shared: &Heap) -> Went {
        went(close_turn(shared, &mut self.run))
    }
}

// The runs of these seats, which get no more command, in room that was taken before.
pub(crate) fn close_all(seats: Vec<Seat>, room: Vec<Closing>) -> Vec<Closing>
    requires empty { room.items ≡ [] }
    requires room { length seats.items ≤ vec_capacity room }
    ensures { AreClosedFrom seats.items result.items }
{
    let mut closing = room;
    'seats: for seat in seats {
        let Seat { mut run, .. } = seat;
        run.close();
        closing.push_reserved(Closing { run });
    }
    closing
}

// Takes the replies of finalisers that wait to be taken of a run, into room that was taken before.
fn take_all(run: &mut DomainRun, room: Vec<Reply>) -> Vec<Reply>
    requires empty { room.items ≡ [] }
    requires room { length run.old.ran ≤ vec_capacity room }
    ensures taken { result.items ≡ run.old.ran }
    ensures same { run.new ≡ record run.old { ran = [] } }
{
    let mut taken = room;
    'waiting: for _place in 0..run.ran_len() {
        let Some(ran) = run.take_ran() else {
            unreachable!()
        };
        taken.push_reserved(ran);
    }
    taken
}

// The domains of runs that are over, and what waits to be taken of each, in room that was taken before.
pub(crate) fn domains_of(
    alloc: Global,
    closing: Vec<Closing>,
    room: Vec<Domain>,
    lists: Vec<Vec<Reply>>,
) -> Result<(Vec<Domain>, Vec<Vec<Reply>>), AllocError>
    requires over { AllByRecursion (λ t. IsOver t.run) closing.items }
    requires empty { (room.items ≡ []) × (lists.items ≡ []) }
    requires room { length closing.items ≤ vec_capacity room }
    requires lists { length closing.items ≤ vec_capacity lists }
    ensures domains { IfOk result (λ r. r.0.items ≡ map token_of closing.items) }
    ensures ran { IfOk result (λ r. map (λ v. v.items) r.1.items ≡ map ran_of closing.items) }
    ensures faithful { IfOk result (λ _. AllByRecursion (λ t. IsRun t.run) closing.items) }
{
    let mut domains = room;
    let mut taken = lists;
    'runs: for trace in closing {
        let Closing { mut run } = trace;
        run.shows_faithful();
        let waiting = Vec::with_capacity(alloc, run.ran_len())?;
        taken.push_reserved(take_all(&mut run, waiting));
        domains.push_reserved(run.into_domain());
    }
    Ok((domains, taken))
}
