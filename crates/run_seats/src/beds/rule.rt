//! The rule of a room with beds, and the steps by which it changes.
ghost use Rattle.std.specs.Prelude.{◌≡◌};
ghost use Rattle.run_seats.specs.Beds.Bedding.{Finds, next_bed, one_more, putting, taking, without};

use crate::beds::restful::Restful;
use crossbeam_queue::protocol::{Outcome, Protocol, Split};
use std::marker::PhantomData;

/// A thing that rests, the number of its bed, and how often something was put there.
#[derive(Drop)]
pub struct Rested<T> {
    pub item: T,
    pub number: u32,
    pub stamp: u64,
}

/// What a bed knows. No value of it is made.
pub struct Knows<T> {
    /// The bed's number.
    pub number: u32,
    /// How often something was put there.
    pub stamp: u64,
    /// Whether it makes the other beds, and the number of the next.
    pub makes: bool,
    pub next: u32,
    /// The thing as it was put there last.
    pub rests: Option<T>,
    /// The thing that it has taken out of the room.
    pub turns: Option<Rested<T>>,
}

/// The rule of a room.
pub struct Law<T> {
    of: PhantomData<T>,
}

impl<T: Restful> Protocol<Rested<T>, Knows<T>> for Law<T> {
    ghost use Rattle.run_seats.specs.Beds.Bedding.{Bedded, first_bed};

    ghost holds = { Bedded T.follows };

    ghost first = { first_bed };
}

// A thing is put to rest.
pub(crate) struct Puts;

impl<T> Outcome<Rested<T>, Knows<T>> for Puts {
    ghost then = { λ v x w. w ≡ putting v x };
}

// A thing is taken out.
pub(crate) struct Takes<T> {
    of: PhantomData<T>,
}

impl<T: Restful> Outcome<Rested<T>, Knows<T>> for Takes<T> {
    ghost then = { λ v x w. (w ≡ taking v x) × Finds T.follows v x };
}

// A thing that was taken out is put back.
pub(crate) struct Gives;

impl<T> Outcome<Rested<T>, Knows<T>> for Gives {
    ghost then = { λ v x w. w ≡ without v };
}

// The first bed makes another.
pub(crate) struct Another;

impl<T> Split<Knows<T>> for Another {
    ghost left = { one_more };

    ghost right = { next_bed };
}
