//! The pool, and what a keeper does with it.
ghost use Rattle.std.specs.Prelude.{◌≡◌, ◌<◌, ◌+◌, true, IfOk, Some};
ghost use Rattle.run_seats.specs.Pool.Keeping.{KeepsOf, first_keeper, next_keeper};

use crate::pool::restful::Restful;
use crate::pool::rule::{Knows, Rested};
use crate::pool::steps::{Queue, another, give, put, put_first, take, take_own};
use crossbeam_queue::Pass;
use std::alloc::{AllocError, Global};
use std::marker::Model;
use std::sync::Wait;

/// A pool. All that rests in it shares one thing.
#[derive(Drop)]
pub struct Pool<S, T: Restful<S> + Drop> {
    queue: Queue<S, T>,
}

impl<S, T: Restful<S> + Drop> Model for Pool<S, T> {
    ghost use Rattle.atomic_table.specs.Seated.{TableId};

    ghost Value = { TableId };

    ghost view = { λ p. p.queue.table.shared.table_id };
}

/// The keeper of one thing.
#[derive(Drop)]
pub struct Keeper<T> {
    pass: Pass<Rested<T>, Knows<T>>,
    number: u32,
    stamp: u64,
}

impl<T> Model for Keeper<T> {
    ghost use Rattle.std.specs.Prelude.{◌≡◌, []};
    ghost use Rattle.crossbeam_queue.specs.Passes.{view as known};
    ghost use Rattle.run_seats.specs.Pool.Keeping.{KeeperView};

    ghost Value = { KeeperView T };

    ghost view = { λ k. record { pool = k.pass.table_id; number = k.number; makes = (known k.pass).makes; next = (known k.pass).next; rests = (known k.pass).rests } };

    ghost invariant = { λ k. (k.pass.me.1 ≡ []) × ((known k.pass).number ≡ k.number) × ((known k.pass).stamp ≡ k.stamp) };
}

impl<S, T: Restful<S> + Drop> Pool<S, T> {
    /// A pool with room for so many things, and the keeper with number 0, whose thing rests in it.
    pub fn make<R: Wait>(
        rt: &R,
        alloc: Global,
        count: usize,
        item: T,
    ) -> Result<(Pool<S, T>, Keeper<T>), AllocError>
        requires { 0 < count }
        ensures { IfOk result (λ r. r.1 ≡ first_keeper r.0 item) }
    {
        let (queue, mut pass) = Queue::<S, T>::ruled(alloc, count)?;
        let first = Rested {
            item,
            number: 0,
            stamp: 1,
        };
        put_first(rt, &queue, &mut pass, first);
        let keeper = Keeper {
            pass,
            number: 0,
            stamp: 1,
        };
        Ok((Pool { queue }, keeper))
    }

    /// The keeper with the next number. Its own thing doesn't rest.
    pub fn another(&self, keeper: &mut Keeper<T>, number: u32) -> Keeper<T>
        requires pool { keeper.old.pool ≡ self.now }
        requires makes { keeper.old.makes ≡ true }
        requires next { keeper.old.next ≡ number }
        requires keeps { (y : _) × (keeper.old.rests ≡ Some y) }
        ensures made { keeper.new ≡ record keeper.old { next = number + 1 } }
        ensures new { result ≡ next_keeper self.now number keeper.old.rests }
    {
        let pass = another(&self.queue, &mut keeper.pass);
        Keeper {
            pass,
            number,
            stamp: 0,
        }
    }

    /// Puts a keeper's own thing to rest.
    pub fn rest<R: Wait>(&self, rt: &R, shared: &S, keeper: &mut Keeper<T>, item: T)
        requires pool { keeper.old.pool ≡ self.now }
        requires here { T.shares shared.now item }
        requires keeps { KeepsOf T.shares shared.now keeper.old.rests }
        ensures { keeper.new ≡ record keeper.old { rests = Some item } }
    {
        if keeper.stamp == u64::MAX {
            // No more is counted, and this never returns.
            'ever: for _ in rt.forever() {}
            unreachable!()
        }
        let stamp = keeper.stamp + 1;
        let own = Rested {
            item,
            number: keeper.number,
            stamp,
        };
        put(rt, shared, &self.queue, &mut keeper.pass, own);
        keeper.stamp = stamp;
    }

    /// Takes a thing out, lets it go on as far as it goes at once, and puts it back. Answers whether it went on.
    pub fn help<R: Wait>(&self, rt: &R, shared: &S, keeper: &mut Keeper<T>) -> bool
        requires pool { keeper.old.pool ≡ self.now }
        requires keeps { KeepsOf T.shares shared.now keeper.old.rests }
        ensures { keeper.new ≡ keeper.old }
    {
        let Some(mut found) = take(shared, &self.queue, &mut keeper.pass) else {
            return false;
        };
        let went = found.item.attend(shared);
        give(rt, shared, &self.queue, &mut keeper.pass, found);
        went
    }

    /// Takes the keeper's own thing back.
    pub fn resume<R: Wait>(&self, rt: &R, shared: &S, keeper: &mut Keeper<T>) -> T
        requires pool { keeper.old.pool ≡ self.now }
        requires keeps { KeepsOf T.shares shared.now keeper.old.rests }
        ensures same { keeper.new ≡ keeper.old }
        ensures here { T.shares shared.now result }
        ensures follows { (y : _) → keeper.old.rests ≡ Some y → T.follows y result }
    {
        take_own(
            rt,
            shared,
            &self.queue,
            &mut keeper.pass,
            keeper.number,
            keeper.stamp,
        )
    }
}
