//! A session without finalisers, which is the machine of the calls on tables.
ghost use Rattle.std.specs.Prelude.{◌≡◌, ◌↔◌, ◌+◌, ◌-◌, ◌<◌, ◌≤◌, ℕ, [], IfOk, Err};
ghost use Rattle.model_core.specs.Counts.Counts.{ephemerons_given, labels_given};
ghost use Rattle.model_core.specs.Commands.{shown};
ghost use Rattle.model_core.specs.Domains.{IsWithinLimits, domain_at, opening, register as register_value};
ghost use Rattle.model_core.specs.Registrations.{all_registered};
ghost use Rattle.model_core.specs.History.{Legal};
ghost use Rattle.heap_rule.specs.Limits.{sizes_in};
ghost use Rattle.heap_rule.specs.Rule.{state_of};
ghost use Rattle.run_session.specs.Sessions.{IsFirstOutside, MayPerform, alone, fresh, most_arrivals, most_spent};
ghost use Rattle.run_session.specs.Stopping.{StopsAfter};
ghost use Rattle.weak_laws.specs.Tables.Performing.{Performed};

use crate::session::{MOST_SPENT, Session};
use heap_rule::{Ended, StartFault};
use model_core::command::Command;
use model_core::reply::Reply;
use std::alloc::Global;
use std::marker::Model;
use std::sync::Wait;
use weak_tables::machine::Machine;

/// A session without room for finalisers: between two of its commands there are entries of the collector alone.
/// The calls of `weak_tables` take one.
#[derive(Drop)]
pub struct TableSession {
    session: Session,
}

impl Model for TableSession {
    ghost use Rattle.std.specs.Prelude.{◌≡◌, []};
    ghost use Rattle.model_core.specs.Domains.{opening};
    ghost use Rattle.model_core.specs.Registrations.{all_registered};
    ghost use Rattle.heap_rule.specs.Limits.{sizes_in};
    ghost use Rattle.run_session.specs.Sessions.{SessionView};

    ghost Value = { SessionView };

    ghost view = { λ t. t.session };

    ghost invariant = { λ t. (t.session.config.finals ≡ 0) × (t.session.ran ≡ []) × (all_registered 0 (opening (sizes_in t.session.config)) t.session.front ≡ []) };
}

impl TableSession {
    /// A heap of one domain, as that of [`Session::make`], without room for finalisers.
    pub fn make(
        alloc: Global,
        minor_words: u32,
        pools: u32,
        ephes: u32,
    ) -> Result<TableSession, StartFault>
        ensures outside { (k : ℕ) → (result ≡ Err (StartFault.Config k)) ↔ IsFirstOutside minor_words pools 0 ephes k }
        ensures session { IfOk result (λ s. s ≡ fresh (alone minor_words pools 0 ephes)) }
    {
        let session = Session::make(alloc, minor_words, pools, 0, ephes)?;
        Ok(TableSession { session })
    }

    /// How many more ephemerons fit.
    pub fn ephes_room(&self) -> usize
        ensures { result ≡ self.now.room }
    {
        self.session.ephes_room()
    }

    /// How many labels are left for blocks: 4,294,967,295 less those that were given out.
    pub fn labels_left(&self) -> u32
        ensures { result + self.now.labels ≡ 4294967295 }
    {
        self.session.labels_left()
    }

    /// How often the domain may still arrive, as [`Session::arrivals_left`].
    pub fn arrivals_left(&self) -> u64
        ensures { result + self.now.stats.arrivals ≡ most_arrivals }
    {
        self.session.arrivals_left()
    }

    /// There is one domain, the numbers are within their limits, the history so far is legal for them and registers no
    /// finaliser, and so many labels were given out as it says.
    pub fn shows_legal(&self)
        ensures alone { self.now.config.domains ≡ 1 }
        ensures limits { IsWithinLimits (sizes_in self.now.config) }
        ensures legal { Legal (sizes_in self.now.config) self.now.front }
        ensures unregistered { all_registered 0 (opening (sizes_in self.now.config)) self.now.front ≡ [] }
        ensures labels { self.now.labels ≡ (domain_at (state_of self.now.config self.now.front) 0).serial }
    {
        self.session.shows_legal();
    }

    /// Makes a command that registers no finaliser, and answers its reply, as [`Session::perform`]. The history grows
    /// by entries of the collector and then by this command, and the reply is that of the state before it.
    #[inline(always)]
    pub fn perform(&mut self, command: Command) -> Reply
        requires may { MayPerform self.old command }
        ensures config { self.new.config ≡ self.old.config }
        ensures labels { self.new.labels ≡ self.old.labels + labels_given command result }
        ensures room { self.old.room ≤ self.new.room + ephemerons_given command result }
        ensures arrivals { self.new.stats.arrivals ≤ self.old.stats.arrivals + most_spent }
        ensures performed { Performed (sizes_in self.old.config) self.old.front self.new.front command result }
    {
        self.session.shows_legal();
        let reply = self.session.perform(command);
        self.session.shows_legal();
        reply
    }

    /// The reply that shows what a register holds, as [`Session::show`].
    pub fn show(&mut self, r: u8) -> Reply
        requires few { r < 16 }
        ensures same { self.new ≡ self.old }
        ensures reply { result ≡ shown (register_value (state_of self.old.config self.old.front) 0 r) }
    {
        self.session.show(r)
    }

    /// Ends the domain's trace and the heap. The history of the ended heap is the one so far, then entries of
    /// the collector, the end of the trace, and maybe more of the collector's.
    pub fn stop(self) -> Ended
        ensures sizes { result.sizes ≡ sizes_in self.config }
        ensures stops { StopsAfter (sizes_in self.config) self.front result.history }
    {
        self.session.stop()
    }
}

/// Whether the domain of a session may arrive as often as one command takes at most. Where it may not this waits for ever.
#[inline(always)]
pub(crate) fn await_arrivals<R: Wait>(rt: &R, session: &TableSession)
    ensures few { session.now.stats.arrivals + most_spent ≤ most_arrivals }
{
    if session.arrivals_left() >= MOST_SPENT {
        return;
    }
    'ever: for _ in rt.forever() {}
    unreachable!()
}

impl Machine for TableSession {
    ghost sizes = { λ s. sizes_in s.config };

    ghost front = { λ s. s.front };

    ghost labels_left = { λ s. 4294967295 - s.labels };

    ghost ephes_room = { λ s. s.room };

    fn shows_legal(&self) {
        TableSession::shows_legal(self);
        self.labels_left();
    }

    fn show(&mut self, r: u8) -> Reply {
        TableSession::show(self, r)
    }

    fn perform<R: Wait>(&mut self, rt: &R, c: Command) -> Reply {
        await_arrivals(rt, self);
        TableSession::perform(self, c)
    }
}
