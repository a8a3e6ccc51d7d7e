//! A seat of a heap that threads share.
ghost use Rattle.std.specs.Prelude.{◌≡◌, ◌-◌, ◌≤◌};
ghost use Rattle.heap_rule.specs.Limits.{sizes_in};
ghost use Rattle.run_seats.specs.Seating.{IsSameUnlabelled, IsSeatOf};
ghost use Rattle.run_session.specs.Domains.Seated.{IsUnused, Polls, Stands};

use heap_rule::Config;
use model_core::command::Command;
use model_core::reply::Reply;
use run_seats::{Resting, Seat, Seats};
use std::marker::Model;
use std::sync::Wait;
use weak_maps::machine::Machine;

/// A domain of a heap that threads share, as the calls of `weak_maps` take it: a seat of the heap, whose domain has
/// registered no finaliser. Between two of its commands there may be commands of the others.
#[derive(Drop)]
pub struct SeatDomain<'a> {
    seats: &'a Seats,
    seat: Seat,
    domains: u32,
}

impl<'a> Model for SeatDomain<'a> {
    ghost use Rattle.std.specs.Prelude.{◌≡◌};
    ghost use Rattle.run_session.specs.Domains.Seated.{IsSeated, SeatedView};

    ghost Value = { SeatedView };

    ghost view = { λ d. record { seats = d.seats.now; seat = d.seat } };

    ghost invariant = { λ d. IsSeated (record { seats = d.seats.now; seat = d.seat }) × (d.domains ≡ d.seat.heap.config.domains) };
}

impl<'a> SeatDomain<'a> {
    /// The domain of this seat. The numbers are those of its heap.
    pub fn new(seats: &'a Seats, config: Config, seat: Seat) -> SeatDomain<'a>
        requires here { IsSeatOf seats.now seat }
        requires config { config ≡ seats.now.heap.config }
        requires stands { Stands seat }
        ensures seats { result.seats ≡ seats.now }
        ensures seat { result.seat ≡ seat }
    {
        SeatDomain {
            seats,
            seat,
            domains: config.domains,
        }
    }

    /// The domain of a seat that rests. It makes a `poll`, before which others may have gone on.
    pub fn resume<R: Wait>(
        rt: &R,
        seats: &'a Seats,
        config: Config,
        resting: Resting,
    ) -> SeatDomain<'a>
        requires here { IsSeatOf seats.now resting }
        requires config { config ≡ seats.now.heap.config }
        requires stands { Stands resting }
        ensures seats { result.seats ≡ seats.now }
        ensures same { IsSameUnlabelled resting result.seat }
        ensures room { resting.room ≤ result.seat.room }
        ensures polled { Polls resting result.seat }
    {
        let mut seat = resting.resume(rt, seats);
        let _reply = seat.perform(rt, seats, Command::Poll);
        SeatDomain::new(seats, config, seat)
    }

    /// Lets the seat of the domain rest. It doesn't hold up a pause of the others then.
    pub fn rest<R: Wait>(self, rt: &R) -> Resting
        ensures same { result ≡ self.entry.seat }
        ensures here { IsSeatOf self.entry.seats result }
        ensures stands { Stands result }
    {
        let SeatDomain { seats, seat, .. } = self;
        seat.rest(rt, seats)
    }

    /// The seat of the domain, as one looks at it while the domain is in use.
    pub fn seat(&self) -> &Seat
        ensures { result.now ≡ self.now.seat }
    {
        &self.seat
    }

    /// The seat of the domain, as it is now.
    pub fn into_inner(self) -> Seat
        ensures seat { result ≡ self.entry.seat }
        ensures here { IsSeatOf self.entry.seats result }
        ensures stands { Stands result }
    {
        self.seat
    }
}

impl<'a> Machine for SeatDomain<'a> {
    type Heap = Seats;

    ghost heap = { λ d. d.seats };

    ghost sizes = { λ d. sizes_in d.seat.heap.config };

    ghost domain = { λ d. d.seat.number };

    ghost front = { λ d. d.seat.front };

    ghost labels_left = { λ d. 4294967295 - d.seat.labels };

    ghost ephes_room = { λ d. d.seat.room };

    fn shows_legal(&self) {
        self.seat.labels_left();
    }

    fn domains(&self) -> u32 {
        self.domains
    }

    fn show(&mut self, r: u8) -> Reply {
        self.seat.show(self.seats, r)
    }

    #[inline(always)]
    fn perform<R: Wait>(&mut self, rt: &R, c: Command) -> Reply {
        self.seat.labels_left();
        self.seat.perform(rt, self.seats, c)
    }
}

/// A seat on which no command was made stands. Nothing changes.
pub fn unused_stands(resting: &Resting)
    requires unused { IsUnused resting.now }
    ensures stands { Stands resting.now }
{}
