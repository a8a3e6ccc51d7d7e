//! A session whose trace has ended.
ghost use Rattle.std.specs.Prelude.{◌≡◌, ◌<◌, [], drop, length, slice_get, true, vec_capacity};
ghost use Rattle.heap_rule.specs.Limits.{sizes_in};
ghost use Rattle.heap_rule.specs.Token.{IsIn};
ghost use Rattle.run_session.specs.Stopping.{Follows};

use heap_rule::{Domain, Ended, Heap};
use model_core::reply::Reply;
use run_turns::DomainRun;
use std::marker::Model;

/// A session whose trace has ended. What its finalisers replied may still be taken, and then the heap ends.
#[derive(Drop)]
pub struct EndedSession {
    heap: Heap,
    run: DomainRun,
    // Room for the domain as the heap ends.
    room: Vec<Domain>,
}

impl Model for EndedSession {
    ghost use Rattle.std.specs.Prelude.{◌≡◌, ◌<◌, [], true, vec_capacity};
    ghost use Rattle.heap_rule.specs.Token.{IsIn};
    ghost use Rattle.run_session.specs.Stopping.{EndedView};

    ghost Value = { EndedView };

    ghost view = { λ e. record { config = e.heap.config; front = e.run.token.view.seen.front; ran = e.run.ran } };

    ghost invariant = { λ e. IsIn e.run.token e.heap × (e.heap.config.domains ≡ 1) × (e.run.token.view.own.number ≡ 0) × (e.run.ended ≡ true) × (e.room.items ≡ []) × (1 < vec_capacity e.room) };
}

impl EndedSession {
    // The session of a run whose trace has ended.
    pub(crate) fn new(heap: Heap, run: DomainRun, room: Vec<Domain>) -> EndedSession
        requires here { IsIn run.token heap }
        requires alone { heap.config.domains ≡ 1 }
        requires first { run.token.view.own.number ≡ 0 }
        requires ended { run.ended ≡ true }
        requires room { (room.items ≡ []) × (1 < vec_capacity room) }
        ensures config { result.config ≡ heap.config }
        ensures front { result.front ≡ run.token.view.seen.front }
        ensures ran { result.ran ≡ run.ran }
    {
        EndedSession { heap, run, room }
    }

    /// How many finalisers ran whose replies wait to be taken.
    pub fn ran_len(&self) -> usize
        ensures { result ≡ length self.now.ran }
    {
        self.run.ran_len()
    }

    /// The reply at this place of those that wait to be taken, from the oldest at 0 on. None exactly where fewer wait.
    pub fn ran(&self, place: usize) -> Option<Reply>
        ensures { result ≡ slice_get self.now.ran place }
    {
        self.run.ran(place)
    }

    /// Takes the oldest reply of those that wait. None exactly where none waits.
    pub fn take_ran(&mut self) -> Option<Reply>
        ensures oldest { result ≡ slice_get self.old.ran 0 }
        ensures others { self.new ≡ record self.old { ran = drop 1 self.old.ran } }
    {
        self.run.take_ran()
    }

    /// Ends the heap. Its history is that of the domain, and maybe entries of the collector. What waits is given up.
    pub fn stop(self) -> Ended
        ensures sizes { result.sizes ≡ sizes_in self.config }
        ensures follows { Follows (sizes_in self.config) self.front result.history }
    {
        let EndedSession { heap, run, room } = self;
        let _limits = heap.config();
        let mut domains = room;
        domains.push_reserved(run.into_domain());
        heap.stop(domains)
    }
}
