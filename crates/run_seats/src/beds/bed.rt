//! A bed, and what is done with it.
ghost use Rattle.std.specs.Prelude.{◌≡◌, ◌↔◌, ◌+◌, ◌<◌, true, false, IfOk, IfErr, IfSome, None, Some};
ghost use Rattle.run_seats.specs.Beds.Bedding.{BedView, IsSameBed, MakesNone, plain_bed};

use crate::beds::restful::Restful;
use crate::beds::rule::{Knows, Rested};
use crate::beds::steps::{Queue, another, give, put, take, take_own};
use crossbeam_queue::Pass;
use std::alloc::{AllocError, Global};
use std::marker::Model;
use std::sync::Arc;

// How many beds a room has at most.
const MOST_BEDS: u32 = 64;

// How many rounds of tries a bed that is to be freed takes to give back what it keeps.
const ROUNDS: u32 = 1 << 16;

/// Why there is no further bed.
#[derive(Clone, Copy, Debug, PartialEq, Eq)]
pub enum NoBed {
    /// This one isn't the first of its room.
    NotFirst,
    /// There are 64.
    Full,
    /// Memory ran out.
    Memory,
}

/// A bed of a room. Contracts see what rests there, as it was put, of the first how many there are so far, whether it keeps a
/// thing of another bed that it couldn't put back, and whether it has lost one, which it never has.
#[derive(Drop)]
pub struct Bed<T: Restful + Drop> {
    room: Arc<Queue<T>>,
    pass: Pass<Rested<T>, Knows<T>>,
    number: u32,
    stamp: u64,
    makes: bool,
    next: u32,
    is_taken: bool,
    // A thing that couldn't be put back so far.
    guest: Option<Rested<T>>,
}

impl<T: Restful + Drop> Model for Bed<T> {
    ghost use Rattle.std.specs.Prelude.{is_some};
    ghost use Rattle.crossbeam_queue.specs.Passes.{IsPassOf, view as known};
    ghost use Rattle.run_seats.specs.Beds.Bedding.{BedView, IsBed, is_lost, lies_in};

    ghost Value = { BedView T };

    ghost view = { λ b. record { rests = lies_in b.is_taken (known b.pass).rests; makes = b.makes; beds = b.next; keeps = is_some b.guest; lost = is_lost b.is_taken b.number (known b.pass).turns b.guest } };

    ghost invariant = { λ b. IsPassOf b.room.value b.pass × IsBed T.follows (known b.pass) b.number b.stamp b.next b.is_taken b.makes b.guest };
}

impl<T: Restful + Drop> Bed<T> {
    /// The first bed of a new room.
    pub fn make(alloc: Global) -> Result<Bed<T>, AllocError>
        ensures { IfOk result (λ b. b ≡ record { rests = None; makes = true; beds = 1; keeps = false; lost = false }) }
    {
        let (room, pass) = Queue::<T>::ruled(alloc, MOST_BEDS as usize)?;
        Ok(Bed {
            room: Arc::new(alloc, room)?,
            pass,
            number: 0,
            stamp: 0,
            makes: true,
            next: 1,
            is_taken: false,
            guest: None,
        })
    }

    /// Whether it may make another, as the first of its room may while there are fewer than 64, and else why not.
    pub fn may_make(&self) -> Result<(), NoBed>
        ensures may { IfOk result (λ _. (self.now.makes ≡ true) × (self.now.beds < 64)) }
        ensures why { IfErr result (MakesNone self.now) }
    {
        if !self.makes {
            return Err(NoBed::NotFirst);
        }
        if self.next >= MOST_BEDS {
            return Err(NoBed::Full);
        }
        Ok(())
    }

    /// Another bed of the room of this one, which is its first. There are 64 at most.
    pub fn another(&mut self) -> Result<Bed<T>, NoBed>
        ensures made { IfOk result (λ b. (b ≡ plain_bed) × (self.new ≡ record self.old { beds = self.old.beds + 1 })) }
        ensures may { IfOk result (λ _. (self.old.makes ≡ true) × (self.old.beds < 64)) }
        ensures why { IfErr result (MakesNone self.old) }
        ensures same { IfErr result (λ _. self.new ≡ self.old) }
    {
        self.may_make()?;
        let Ok(room) = Arc::try_clone(&self.room) else {
            return Err(NoBed::Memory);
        };
        let pass = another(&self.room, &mut self.pass);
        let number = self.next;
        self.next += 1;
        Ok(Bed {
            room,
            pass,
            number,
            stamp: 0,
            makes: false,
            next: 0,
            is_taken: false,
            guest: None,
        })
    }

    /// Whether nothing rests there.
    pub fn is_free(&self) -> bool
        ensures { (result ≡ true) ↔ (self.now.rests ≡ None) }
    {
        !self.is_taken
    }

    // Puts back what couldn't be put back so far.
    fn give_back(&mut self)
        ensures { IsSameBed self.old self.new }
    {
        let Some(found) = self.guest.take() else {
            return;
        };
        if let Err(found) = give(&self.room, &mut self.pass, found) {
            self.guest = Some(found);
        }
    }

    /// Puts back what couldn't be put back so far, in many tries. Answers whether it keeps nothing of another bed then: else
    /// it isn't to be freed, since that thing would be lost.
    pub fn gives_back(&mut self) -> bool
        ensures same { IsSameBed self.old self.new }
        ensures given { (result ≡ true) ↔ (self.new.keeps ≡ false) }
    {
        'rounds: for _ in 0..ROUNDS {
            if self.guest.is_none() {
                break;
            }
            self.give_back();
        }
        self.guest.is_none()
    }

    /// Puts a thing to rest, where nothing rests there. It comes back where another thread is in the way.
    pub fn rest(&mut self, item: T) -> Result<(), T>
        requires free { self.old.rests ≡ None }
        ensures rests { IfOk result (λ _. self.new ≡ record self.old { rests = Some item; keeps = false }) }
        ensures back { IfErr result (λ back. back ≡ item) }
        ensures same { IfErr result (λ _. IsSameBed self.old self.new) }
    {
        self.give_back();
        if self.guest.is_some() || self.stamp == u64::MAX {
            return Err(item);
        }
        let stamp = self.stamp + 1;
        let own = Rested {
            item,
            number: self.number,
            stamp,
        };
        match put(&self.room, &mut self.pass, own) {
            Ok(()) => {
                self.stamp = stamp;
                self.is_taken = true;
                Ok(())
            }
            Err(Rested { item, .. }) => Err(item),
        }
    }

    /// Takes the thing back that rests there, maybe further on. None where nothing does, and where another thread has it
    /// at the moment or is in the way.
    pub fn resume(&mut self) -> Option<T>
        ensures rested { IfSome result (λ t. (y : T) × ((self.old.rests ≡ Some y) × T.follows y t)) }
        ensures free { IfSome result (λ _. self.new ≡ record self.old { rests = None; keeps = false }) }
        ensures same { result ≡ None → IsSameBed self.old self.new }
    {
        self.give_back();
        if self.guest.is_some() || !self.is_taken {
            return None;
        }
        match take_own(&self.room, &mut self.pass, self.number, self.stamp) {
            Ok(item) => {
                self.is_taken = false;
                Some(item)
            }
            Err(guest) => {
                self.guest = guest;
                None
            }
        }
    }

    /// Takes a thing further that rests in the room, if one can be had at once. Answers whether it went on.
    pub fn attend(&mut self) -> bool
        ensures { IsSameBed self.old self.new }
    {
        self.give_back();
        if self.guest.is_some() {
            return false;
        }
        let Some(mut found) = take(&self.room, &mut self.pass) else {
            return false;
        };
        let went = found.item.attend();
        if let Err(found) = give(&self.room, &mut self.pass, found) {
            self.guest = Some(found);
        }
        went
    }
}
