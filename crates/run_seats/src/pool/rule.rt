//! The rule of a pool, and the steps by which it changes.
ghost use Rattle.std.specs.Prelude.{◌≡◌};
ghost use Rattle.run_seats.specs.Pool.Pooling.{Finds, next_keeper, one_more, putting, taking, without};

use crate::pool::restful::Restful;
use crossbeam_queue::protocol::{Outcome, Protocol, Split};
use std::marker::PhantomData;

/// A thing that rests, its keeper's number, and how often that one had put it to rest.
#[derive(Drop)]
pub struct Rested<T> {
    pub item: T,
    pub number: u32,
    pub stamp: u64,
}

/// What a keeper knows. No value of it is made.
pub struct Knows<T> {
    /// The keeper's number.
    pub number: u32,
    /// How often it has put its thing to rest.
    pub stamp: u64,
    /// Whether it makes the other keepers, and the number of the next.
    pub makes: bool,
    pub next: u32,
    /// The thing as it was put to rest last, by this keeper or by the one that made it.
    pub rests: Option<T>,
    /// The thing that the keeper has taken out of the pool.
    pub turns: Option<Rested<T>>,
}

/// The rule of a pool.
pub struct Law<S, T> {
    of: PhantomData<(S, T)>,
}

impl<S, T: Restful<S>> Protocol<Rested<T>, Knows<T>> for Law<S, T> {
    ghost use Rattle.run_seats.specs.Pool.Pooling.{Pooled, first_keeper};

    ghost holds = { Pooled T.shares T.follows };

    ghost first = { first_keeper };
}

// A keeper puts its own thing to rest.
pub(crate) struct Puts;

impl<T> Outcome<Rested<T>, Knows<T>> for Puts {
    ghost then = { λ v x w. w ≡ putting v x };
}

// A keeper takes a thing out.
pub(crate) struct Takes<S, T> {
    of: PhantomData<(S, T)>,
}

impl<S, T: Restful<S>> Outcome<Rested<T>, Knows<T>> for Takes<S, T> {
    ghost then = { λ v x w. (w ≡ taking v x) × Finds T.shares T.follows v x };
}

// A keeper puts a thing back that it took out.
pub(crate) struct Gives;

impl<T> Outcome<Rested<T>, Knows<T>> for Gives {
    ghost then = { λ v x w. w ≡ without v };
}

// The first keeper makes another.
pub(crate) struct Another;

impl<T> Split<Knows<T>> for Another {
    ghost left = { one_more };

    ghost right = { next_keeper };
}
