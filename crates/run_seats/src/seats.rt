//! The heap, with the place where seats rest.
ghost use Rattle.std.specs.Prelude.{◌≡◌, ◌↔◌, ◌<◌, ◌≤◌, ℕ, true, Some, Err, IfOk, [], length, map, vec_capacity};
ghost use Rattle.std.specs.List.{AllByRecursion};
ghost use Rattle.model_core.specs.History.{Legal};
ghost use Rattle.heap_rule.specs.Limits.{first_outside, sizes_in};
ghost use Rattle.run_seats.specs.Seating.{AllSeatsOf, fresh_seats, seat_with};
ghost use Rattle.run_seats.specs.Shared.Idling.{IsIdleIn};
ghost use Rattle.run_seats.specs.Idling.{KeepsHeap};
ghost use Rattle.run_seats.specs.Stopping.{StopsEach, TellsEach};

use crate::closing::{close_all, domains_of};
use crate::idle::Idle;
use crate::pool::{Keeper, Pool};
use crate::seat::{Resting, Seat};
use crossbeam_utils::sync::EventCount;
use heap_rule::{Config, Ended, Heap, StartFault};
use model_core::reply::Reply;
use run_threads::drive_alone;
use run_turns::DomainRun;
use run_turns::singly::start;
use std::alloc::{AllocError, Global};
use std::marker::Model;
use std::sync::Wait;
use text_ends::NoGate;

/// A heap whose domains have seats. Threads share it by reference. Contracts see the heap, and which pool the seats rest in.
#[derive(Drop)]
pub struct Seats {
    pub(crate) heap: Heap,
    pub(crate) pool: Pool<Heap, Idle>,
    pub(crate) events: EventCount,
}

impl Model for Seats {
    ghost use Rattle.run_seats.specs.Seating.{SeatsView};

    ghost Value = { SeatsView };

    ghost view = { λ s. record { heap = s.heap; pool = s.pool } };
}

// Puts these runs to rest, each with a keeper of its own, in room that was taken before.
fn rest_all<R: Wait>(
    rt: &R,
    heap: &Heap,
    pool: &Pool<Heap, Idle>,
    maker: &mut Keeper<Idle>,
    runs: Vec<DomainRun>,
    room: Vec<Resting>,
) -> Vec<Resting>
    requires pool { maker.old.pool ≡ pool.now }
    requires makes { maker.old.makes ≡ true }
    requires next { maker.old.next ≡ 1 }
    requires keeps { KeepsHeap heap.now maker.old.rests }
    requires idle { AllByRecursion (IsIdleIn heap.now) runs.items }
    requires few { length runs.items ≤ 8 }
    requires empty { room.items ≡ [] }
    requires room { length runs.items < vec_capacity room }
    ensures resting { result.items ≡ map (seat_with pool.now) runs.items }
    ensures room { length result.items < vec_capacity result }
    ensures maker { maker.new ≡ record maker.old { next = maker.new.next } }
{
    let mut resting = room;
    let mut number = 1;
    'runs: for run in runs {
        let mut keeper = pool.another(maker, number);
        pool.rest(rt, heap, &mut keeper, Idle { run });
        resting.push_reserved(Resting { keeper });
        number += 1;
    }
    resting
}

impl Seats {
    /// A heap of this size, and the seats of its domains in order, all of which rest. Register 0 of each holds the shared
    /// block and the others nothing. All memory is taken here.
    ///
    /// `Config(k)` names the first of the heap's numbers outside its limit.
    pub fn make<R: Wait>(
        rt: &R,
        alloc: Global,
        config: Config,
    ) -> Result<(Seats, Vec<Resting>), StartFault>
        ensures outside { (k : ℕ) → (result ≡ Err (StartFault.Config k)) ↔ (first_outside config ≡ Some k) }
        ensures heap { IfOk result (λ r. r.0.heap.config ≡ config) }
        ensures seats { IfOk result (λ r. r.1.items ≡ fresh_seats r.0 0 config.domains) }
    {
        let (heap, mut runs) = start(alloc, config)?;
        let _limits = heap.config();
        let room = Vec::with_capacity(alloc, runs.len())?;
        let first = Idle {
            run: runs.remove(0),
        };
        let (pool, mut maker) = Pool::make(rt, alloc, config.domains as usize, first)?;
        let mut resting = rest_all(rt, &heap, &pool, &mut maker, runs, room);
        if resting.insert(0, Resting { keeper: maker }).is_err() {
            return Err(StartFault::Memory);
        }
        let seats = Seats {
            heap,
            pool,
            events: EventCount::new(),
        };
        Ok((seats, resting))
    }

    /// Ends the trace of each of these seats, which are all of them, and then the heap. This thread does so. Fails for
    /// want of memory alone, and then the heap is given up. Where a seat is missing that doesn't rest, or isn't ended,
    /// this waits without end.
    ///
    /// The history of the ended heap is legal, and has of each seat's domain exactly the commands that were made on it,
    /// each once and in order, with the replies that were given, then those of the finalisers that waited, and then the
    /// end of its trace. What of these replies of finalisers wasn't [taken](Seat::take_ran) is handed out, of each seat
    /// in order.
    pub fn stop_taking<R: Wait>(
        self,
        rt: &R,
        alloc: Global,
        seats: Vec<Seat>,
    ) -> Result<(Ended, Vec<Vec<Reply>>), AllocError>
        requires here { AllSeatsOf self seats.items }
        requires some { 0 < length seats.items }
        ensures sizes { IfOk result (λ r. r.0.sizes ≡ sizes_in self.heap.config) }
        ensures legal { IfOk result (λ r. Legal r.0.sizes r.0.history) }
        ensures stops { IfOk result (λ r. StopsEach r.0.sizes r.0.history seats.items) }
        ensures tells { IfOk result (λ r. TellsEach r.0.sizes r.0.history seats.items (map (λ v. v.items) r.1.items)) }
    {
        let room = Vec::with_capacity(alloc, seats.len())?;
        let lists = Vec::with_capacity(alloc, seats.len())?;
        let traces = Vec::with_capacity(alloc, seats.len())?;
        let Seats { heap, .. } = self;
        let ended = drive_alone(rt, &heap, close_all(seats, traces), &NoGate);
        let (domains, taken) = domains_of(alloc, ended, room, lists)?;
        Ok((heap.stop(domains), taken))
    }

    /// The same, and forgets what wasn't taken.
    pub fn stop<R: Wait>(self, rt: &R, alloc: Global, seats: Vec<Seat>) -> Result<Ended, AllocError>
        requires here { AllSeatsOf self seats.items }
        requires some { 0 < length seats.items }
        ensures sizes { IfOk result (λ e. e.sizes ≡ sizes_in self.heap.config) }
        ensures legal { IfOk result (λ e. Legal e.sizes e.history) }
        ensures stops { IfOk result (λ e. StopsEach e.sizes e.history seats.items) }
    {
        let (ended, _) = self.stop_taking(rt, alloc, seats)?;
        Ok(ended)
    }
}
