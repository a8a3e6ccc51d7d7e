//! Handles, and their calls.
ghost use Rattle.std.specs.Prelude.{◌≡◌, ◌<◌, ◌∷◌, [], length, slice_get};
ghost use Rattle.run_turns.specs.Tries.{registrations_of};
ghost use Rattle.example_handles.specs.Handling.{Attends, CloseLeaves, Collects, HandleAnswers, HoldsLatest, GoesBy, IsHandles, IsLater, IsSpare, Made, OpenAnswers, OpenWereHeld, Opens, Performs, Settles};
ghost use Rattle.example_handles.specs.Resources.{is_open};
ghost use Rattle.model_core.specs.declared.command.Command.TheVariants as command;
ghost use Rattle.model_core.specs.History.{Legal};
ghost use Rattle.heap_rule.specs.Limits.{sizes_in};
ghost use Rattle.run_seats.specs.Seating.{IsSeatOf, MayPerform};

use crate::resource::{Resource, close, close_waiting};
use crate::resting::RestingHandles;
use model_core::command::Command;
use model_core::reply::Reply;
use run_seats::{Seat, Seats};
use std::marker::Model;
use std::sync::Wait;

/// The resources of one thread, each with a handle: a block that the thread's seat made. A resource is closed by its
/// owner, or else by the finaliser of its handle, which runs once no register of any domain and no field leads to it.
///
/// What the calls say of these resources holds whatever other threads do meanwhile on their seats. A handle may be
/// stored where other domains find it, as in the shared block, and then it is kept as long as one of them leads to it.
/// Its resource stays with the seat that opened it: only there is it closed, or asked for.
#[derive(Drop)]
pub struct Handles {
    pub(crate) seat: Seat,
    // By their numbers.
    pub(crate) resources: Vec<Resource>,
    pub(crate) most: u32,
}

impl Model for Handles {
    ghost use Rattle.std.specs.Prelude.{◌≤◌, vec_capacity};
    ghost use Rattle.example_handles.specs.Handling.{HandlesView, IsHandles};

    ghost Value = { HandlesView };

    ghost view = { λ h. record { seat = h.seat; resources = h.resources.items; most = h.most } };

    ghost invariant = { λ h. IsHandles (record { seat = h.seat; resources = h.resources.items; most = h.most }) × (h.most ≤ vec_capacity h.resources) };
}

impl Handles {
    /// Opens the next resource, with a fresh block in a register below 16 as its handle, and answers its number.
    ///
    /// Answers `None` where there are as many resources as there may be, no label is left, or the heap has no room
    /// for the block.
    pub fn open<R: Wait>(&mut self, rt: &R, seats: &Seats, dst: u8) -> Option<u32>
        requires here { IsSeatOf seats.now self.old.seat }
        requires few { dst < 16 }
        ensures seat { IsLater self.old.seat self.new.seat }
        ensures most { self.new.most ≡ self.old.most }
        ensures answers { OpenAnswers self.old self.new dst result }
    {
        let number = self.resources.len() as u32;
        if number >= self.most || self.seat.labels_left() < 1 {
            return None;
        }
        if !self.make_handle(rt, seats, dst) {
            return None;
        }
        self.register(rt, seats, dst, number);
        Some(number)
    }

    /// Closes a resource by its owner. Answers whether it was open: one that isn't stays as it is.
    pub fn close(&mut self, number: u32) -> bool
        ensures open { result ≡ is_open (slice_get self.old.resources number) }
        ensures leaves { CloseLeaves self.old self.new number }
    {
        close(&mut self.resources, number, Resource::ClosedByOwner)
    }

    /// What the resource with a number is, or `None` where there is none.
    pub fn resource(&self, number: u32) -> Option<Resource>
        ensures { result ≡ slice_get self.now.resources number }
    {
        self.resources.get(number as usize).copied()
    }

    /// Makes a command that makes no block and registers no finaliser, and answers its reply, as
    /// [`Seat::perform`]. Then closes the resources whose finalisers ran before it.
    pub fn perform<R: Wait>(&mut self, rt: &R, seats: &Seats, command: Command) -> Reply
        requires here { IsSeatOf seats.now self.old.seat }
        requires spare { IsSpare command }
        ensures seat { IsLater self.old.seat self.new.seat }
        ensures most { self.new.most ≡ self.old.most }
        ensures performed { Made self.old self.new command result }
        ensures settles { Settles self.old self.new }
    {
        self.make_command(rt, seats, command)
    }

    /// Has the heap collect all that can't be reached from any domain, and closes the resources whose finalisers ran. To
    /// the handle of each that is open then something led as the collection was answered.
    pub fn collect<R: Wait>(&mut self, rt: &R, seats: &Seats)
        requires here { IsSeatOf seats.now self.old.seat }
        ensures seat { IsLater self.old.seat self.new.seat }
        ensures most { self.new.most ≡ self.old.most }
        ensures collects { Collects self.old self.new }
        ensures legal { Legal (sizes_in self.new.seat.heap.config) self.new.seat.front }
        ensures held { OpenWereHeld self.old self.new }
    {
        self.perform(rt, seats, Command::FullMajor);
        self.perform(rt, seats, Command::Poll);
        self.is_kept();
    }

    /// Takes part in the pause that is wanted, if there is one, and closes the resources whose finalisers ran. It
    /// makes no command. A thread that works long without one calls it now and then.
    pub fn attend<R: Wait>(&mut self, rt: &R, seats: &Seats)
        requires here { IsSeatOf seats.now self.old.seat }
        ensures seat { IsLater self.old.seat self.new.seat }
        ensures most { self.new.most ≡ self.old.most }
        ensures along { GoesBy self.old.seat self.new.seat }
        ensures settles { Settles self.old self.new }
    {
        attend_closing(rt, seats, &mut self.seat, &mut self.resources);
    }

    /// Each resource has one finaliser, registered when it was opened. One whose finaliser has run by now is closed, and
    /// of one that was closed by its finaliser it has run.
    pub fn is_kept(&self)
        ensures { IsHandles self.now }
    {
        let _resources = &self.resources;
    }

    /// Lets the seat rest, while its owner does something else. Finalisers that run meanwhile close their resources as
    /// it is taken up again.
    pub fn rest<R: Wait>(self, rt: &R, seats: &Seats) -> RestingHandles
        requires here { IsSeatOf seats.now self.seat }
        ensures same { result ≡ self }
    {
        let Handles {
            seat,
            resources,
            most,
        } = self;
        RestingHandles {
            seat: seat.rest(rt, seats),
            resources,
            most,
        }
    }

    // Makes a command that registers no finaliser, and closes the resources whose finalisers ran before it.
    fn make_command<R: Wait>(&mut self, rt: &R, seats: &Seats, command: Command) -> Reply
        requires here { IsSeatOf seats.now self.old.seat }
        requires may { MayPerform self.old.seat command }
        requires quiet { registrations_of command ≡ 0 }
        ensures most { self.new.most ≡ self.old.most }
        ensures performs { Performs self.old.seat self.new.seat self.old.resources self.new.resources command result }
        ensures settles { Settles self.old self.new }
    {
        perform_closing(rt, seats, &mut self.seat, &mut self.resources, command)
    }

    // Makes a fresh block in a register. Answers whether there was room.
    fn make_handle<R: Wait>(&mut self, rt: &R, seats: &Seats, dst: u8) -> bool
        requires here { IsSeatOf seats.now self.old.seat }
        requires few { dst < 16 }
        requires label { self.old.seat.labels < 4294967295 }
        ensures seat { IsLater self.old.seat self.new.seat }
        ensures most { self.new.most ≡ self.old.most }
        ensures answers { HandleAnswers self.old self.new dst result }
    {
        let handle = Command::Alloc {
            dst,
            tag: 0,
            fields: 1,
        };
        self.is_kept();
        match self.make_command(rt, seats, handle) {
            Reply::Full => false,
            _ => true,
        }
    }

    // Registers the finaliser of the next resource for the block in a register, and opens it.
    fn register<R: Wait>(&mut self, rt: &R, seats: &Seats, dst: u8, number: u32)
        requires here { IsSeatOf seats.now self.old.seat }
        requires few { dst < 16 }
        requires number { number ≡ length self.old.resources }
        requires below { number < self.old.most }
        requires held { HoldsLatest self.old dst }
        ensures seat { IsLater self.old.seat self.new.seat }
        ensures most { self.new.most ≡ self.old.most }
        ensures opens { Opens (command.FinaliseLast dst number ∷ []) 0 self.old self.new dst }
    {
        let last = Command::FinaliseLast { item: dst, number };
        perform_closing(rt, seats, &mut self.seat, &mut self.resources, last);
        self.resources.push_reserved(Resource::Open);
    }
}

// Makes a command, and closes the resources whose finalisers ran before it.
fn perform_closing<R: Wait>(
    rt: &R,
    seats: &Seats,
    seat: &mut Seat,
    resources: &mut [Resource],
    command: Command,
) -> Reply
    requires here { IsSeatOf seats.now seat.old }
    requires taken { seat.old.ran ≡ [] }
    requires may { MayPerform seat.old command }
    ensures performs { Performs seat.old seat.new resources.old resources.new command result }
{
    let reply = seat.perform(rt, seats, command);
    close_waiting(seat, resources);
    reply
}

// Takes part in a pause, and closes the resources whose finalisers ran.
fn attend_closing<R: Wait>(rt: &R, seats: &Seats, seat: &mut Seat, resources: &mut [Resource])
    requires here { IsSeatOf seats.now seat.old }
    requires taken { seat.old.ran ≡ [] }
    ensures attends { Attends seat.old seat.new resources.old resources.new }
{
    seat.attend(rt, seats);
    close_waiting(seat, resources);
}
