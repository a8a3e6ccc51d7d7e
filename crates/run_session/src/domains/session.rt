//! The one domain of a session.
ghost use Rattle.std.specs.Prelude.{◌≡◌, ◌+◌, ◌-◌, ◌≤◌};
ghost use Rattle.model_core.specs.Counts.Counts.{ephemerons_given, labels_given};
ghost use Rattle.heap_rule.specs.Limits.{sizes_in};
ghost use Rattle.run_turns.specs.Singly.Refusing.{Takes};
ghost use Rattle.weak_laws.specs.Tables.Performing.{Performed};

use crate::TableSession;
use crate::tables::await_arrivals;
use heap_rule::Config;
use model_core::command::Command;
use model_core::reply::Reply;
use std::marker::Model;
use std::sync::Wait;
use weak_maps::machine::Machine;

/// The one domain of a heap, as the calls of `weak_maps` take it: a session that registers no finaliser.
#[derive(Drop)]
pub struct SessionDomain {
    session: TableSession,
}

impl Model for SessionDomain {
    ghost use Rattle.run_session.specs.Sessions.{SessionView};

    ghost Value = { SessionView };

    ghost view = { λ d. d.session };
}

impl SessionDomain {
    /// The domain of this session.
    pub fn new(session: TableSession) -> SessionDomain
        ensures { result ≡ session }
    {
        SessionDomain { session }
    }

    /// The session of the domain, as it is now.
    pub fn into_inner(self) -> TableSession
        ensures { result ≡ self }
    {
        self.session
    }

    /// The session, as one looks at it while the domain is in use.
    pub fn session(&self) -> &TableSession
        ensures { result.now ≡ self.now }
    {
        &self.session
    }

    /// Makes a command of any kind but one that registers a finaliser, as the session does. Where the domain may not arrive
    /// as often any more as the command may take this doesn't return.
    pub fn command<R: Wait>(&mut self, rt: &R, command: Command) -> Reply
        requires may { Takes self.old.room self.old.finals (4294967295 - self.old.labels) command }
        ensures config { self.new.config ≡ self.old.config }
        ensures labels { self.new.labels ≡ self.old.labels + labels_given command result }
        ensures room { self.old.room ≤ self.new.room + ephemerons_given command result }
        ensures performed { Performed (sizes_in self.old.config) self.old.front self.new.front command result }
    {
        await_arrivals(rt, &self.session);
        self.session.perform(command)
    }
}

impl Machine for SessionDomain {
    type Heap = Config;

    ghost heap = { λ s. s.config };

    ghost sizes = { λ s. sizes_in s.config };

    ghost domain = { λ s. 0 };

    ghost front = { λ s. s.front };

    ghost labels_left = { λ s. 4294967295 - s.labels };

    ghost ephes_room = { λ s. s.room };

    fn shows_legal(&self) {
        self.session.shows_legal();
        self.session.labels_left();
    }

    fn domains(&self) -> u32 {
        self.session.shows_legal();
        1
    }

    fn show(&mut self, r: u8) -> Reply {
        self.session.show(r)
    }

    #[inline(always)]
    fn perform<R: Wait>(&mut self, rt: &R, c: Command) -> Reply {
        await_arrivals(rt, &self.session);
        self.session.perform(c)
    }
}
