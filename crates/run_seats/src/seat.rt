//! A seat, and a seat that rests.
ghost use Rattle.std.specs.Prelude.{◌≡◌, ◌↔◌, ◌+◌, ◌-◌, ◌<◌, ◌≤◌, drop, length, slice_get, None};
ghost use Rattle.model_core.specs.Counts.Counts.{ephemerons_given, labels_given};
ghost use Rattle.run_turns.specs.Tries.{registrations_of};
ghost use Rattle.run_turns.specs.Singly.Refusing.{IsRefused};
ghost use Rattle.run_seats.specs.Seating.{GoesAlong, IsSameSeat, IsSameUnlabelled, IsSeatOf, MayPerform, PerformsOn, Records, shown_in};

use crate::idle::Idle;
use crate::performing::{attend_calls, perform_on};
use crate::pool::Keeper;
use crate::seats::Seats;
use model_core::command::Command;
use model_core::reply::Reply;
use run_turns::singly::{Refusal, Stats, counts, refuses};
use run_turns::{DomainRun, show};
use std::marker::Model;
use std::sync::Wait;

/// A domain of a heap, on which its owner makes commands. It may move between threads. Contracts see the heap, the
/// domain's number, what the domain has seen of the history so far, how many labels were given out, how many more
/// ephemerons and finalisers fit, what the domain counts, and the replies of the finalisers that ran and weren't taken
/// so far.
#[derive(Drop)]
pub struct Seat {
    pub(crate) run: DomainRun,
    pub(crate) keeper: Keeper<Idle>,
}

impl Model for Seat {
    ghost use Rattle.run_turns.specs.Singly.Refusing.{IsRefused};
    ghost use Rattle.run_seats.specs.Seating.{IsSeat, SeatView, seat_with};

    ghost Value = { SeatView };

    ghost view = { λ s. seat_with s.keeper.pool s.run };

    ghost invariant = { λ s. IsSeat s.run s.keeper };
}

/// A seat whose owner does something else. Whoever waits takes its domain along. Contracts see it as it was when it was
/// put to rest.
#[derive(Drop)]
pub struct Resting {
    pub(crate) keeper: Keeper<Idle>,
}

impl Model for Resting {
    ghost use Rattle.run_turns.specs.Singly.Refusing.{IsRefused};
    ghost use Rattle.run_seats.specs.Seating.{IsResting, SeatView, seat_of};

    ghost Value = { SeatView };

    ghost view = { λ s. seat_of s.keeper.pool s.keeper.rests };

    ghost invariant = { λ s. IsResting s.keeper };
}

impl Seat {
    /// The number of the seat's domain.
    pub fn number(&self) -> u32
        ensures { result ≡ self.now.number }
    {
        self.run.domain().number()
    }

    /// How many more ephemerons fit.
    pub fn ephes_room(&self) -> usize
        ensures { result ≡ self.now.room }
    {
        self.run.domain().ephes_room()
    }

    /// How many more finalisers can be registered. One that was registered takes room until it ran and its reply was
    /// [taken](Seat::take_ran).
    pub fn finals_room(&self) -> usize
        ensures { result ≡ self.now.finals }
    {
        self.run.finals_left()
    }

    /// How many finalisers ran whose replies wait to be taken.
    pub fn ran_len(&self) -> usize
        ensures { result ≡ length self.now.ran }
    {
        self.run.ran_len()
    }

    /// The reply at this place of those of finalisers that ran and wait to be taken, from the oldest at 0 on. None
    /// exactly where fewer wait.
    pub fn ran(&self, place: usize) -> Option<Reply>
        ensures { result ≡ slice_get self.now.ran place }
    {
        self.run.ran(place)
    }

    /// Takes the oldest reply of a finaliser that ran and wasn't taken so far, which makes room for a finaliser more.
    /// None exactly where none waits. What no call of this took waits on, whatever the seat does.
    pub fn take_ran(&mut self) -> Option<Reply>
        ensures oldest { result ≡ slice_get self.old.ran 0 }
        ensures others { self.new ≡ record self.old { ran = drop 1 self.old.ran; finals = self.new.finals } }
        ensures finals { self.new.finals + length self.new.ran ≡ self.old.finals + length self.old.ran }
    {
        let _left = self.run.finals_left();
        self.run.take_ran()
    }

    /// How many labels are left for blocks: 4,294,967,295 less those that were given out.
    pub fn labels_left(&self) -> u32
        ensures { result + self.now.labels ≡ 4294967295 }
    {
        u32::MAX - self.run.domain().labels_made()
    }

    /// What the domain counts: labels, words of its minor area, remembered fields, ephemerons, finalisers and arrivals.
    pub fn stats(&self) -> Stats
        ensures stats { result ≡ self.now.stats }
        ensures labels { result.labels ≡ self.now.labels }
        ensures young { result.young_words ≤ self.now.heap.config.minor_words }
        ensures finals { result.finals + result.lasts + result.waiting + length self.now.ran + self.now.finals
            ≡ self.now.heap.config.finals }
    {
        let _room = self.run.finals_left();
        counts(&self.run)
    }

    /// Why [`perform`](Seat::perform) doesn't take a command: the first that is missing of what it asks. None exactly
    /// where it takes it.
    pub fn refuses(&self, command: &Command) -> Option<Refusal>
        ensures none { (result ≡ None) ↔ MayPerform self.now command.now }
        ensures why { IsRefused self.now.room self.now.finals (4294967295 - self.now.labels) command.now result }
    {
        refuses(
            command,
            self.ephes_room(),
            self.finals_room(),
            self.labels_left(),
        )
    }

    /// Makes a command, and answers its reply. The command fits the shared heap, its registers are below 16 and its
    /// numbers in their ranges, and there are room for an ephemeron that it makes and for a finaliser that it
    /// registers, and a label for a block.
    ///
    /// What the domain has seen of the history grows by entries of others and by runs of the domain's finalisers that
    /// waited, and then by this command, and the reply is that of the state before it. The replies of these finalisers
    /// wait to be [taken](Seat::take_ran), behind those that did. A pause that is wanted is gone through first, and this
    /// thread takes domains along that rest. A domain that has arrived 2^60 times isn't turned any more, and then this
    /// call doesn't return.
    #[inline(always)]
    pub fn perform<R: Wait>(&mut self, rt: &R, seats: &Seats, command: Command) -> Reply
        requires here { IsSeatOf seats.now self.old }
        requires may { MayPerform self.old command }
        ensures same { IsSameSeat self.old self.new }
        ensures performed { PerformsOn self.old self.new command result }
        ensures records { Records self.old self.new command result }
        ensures labels { self.new.labels ≡ self.old.labels + labels_given command result }
        ensures room { self.old.room ≤ self.new.room + ephemerons_given command result }
        ensures finals { self.old.finals ≤ self.new.finals + registrations_of command }
    {
        let _left = self.labels_left();
        self.run.shows_faithful();
        perform_on(
            rt,
            &seats.heap,
            &seats.pool,
            &seats.events,
            &mut self.run,
            &mut self.keeper,
            command,
        )
    }

    /// The reply that shows what a register holds. The register is below 16. No entry is made.
    pub fn show(&mut self, seats: &Seats, r: u8) -> Reply
        requires here { IsSeatOf seats.now self.old }
        requires few { r < 16 }
        ensures same { self.new ≡ self.old }
        ensures reply { result ≡ shown_in self.old r }
    {
        show(&seats.heap, &mut self.run, r)
    }

    /// Takes part in the pause that is wanted or goes on, if there is one, and runs the finalisers that wait. It makes no
    /// command. A thread that works long without one calls it now and then.
    pub fn attend<R: Wait>(&mut self, rt: &R, seats: &Seats)
        requires here { IsSeatOf seats.now self.old }
        ensures same { IsSameUnlabelled self.old self.new }
        ensures along { GoesAlong self.old self.new }
        ensures room { self.old.room ≤ self.new.room }
    {
        attend_calls(
            rt,
            &seats.heap,
            &seats.pool,
            &seats.events,
            &mut self.run,
            &mut self.keeper,
        );
    }

    /// Lets the seat rest, while its owner does something else. It doesn't hold up a pause of the others then.
    pub fn rest<R: Wait>(self, rt: &R, seats: &Seats) -> Resting
        requires here { IsSeatOf seats.now self }
        ensures same { result ≡ self }
    {
        let Seat { run, mut keeper } = self;
        seats.pool.rest(rt, &seats.heap, &mut keeper, Idle { run });
        seats.events.notify_all();
        Resting { keeper }
    }
}

impl Resting {
    /// The seat, which has made no command meanwhile. Finalisers of its domain may have run.
    pub fn resume<R: Wait>(self, rt: &R, seats: &Seats) -> Seat
        requires here { IsSeatOf seats.now self }
        ensures same { IsSameUnlabelled self result }
        ensures along { GoesAlong self result }
        ensures room { self.room ≤ result.room }
    {
        let Resting { mut keeper } = self;
        let Idle { run } = seats.pool.resume(rt, &seats.heap, &mut keeper);
        Seat { run, keeper }
    }
}
