//! The steps of a pool.
ghost use Rattle.std.specs.Prelude.{◌≡◌, ◌+◌, true, IfErr, IfOk, MatchOption, Some};
ghost use Rattle.crossbeam_queue.specs.Passes.{IsPassOf, view};
ghost use Rattle.run_seats.specs.Pool.Pooling.{Finds, first_keeper, holding, next_keeper, one_more, putting, taking, without};
ghost use Rattle.run_seats.specs.Pool.Keeping.{HasTaken, KeepsOf};

use crate::pool::restful::Restful;
use crate::pool::rule::{Another, Gives, Knows, Law, Puts, Rested, Takes};
use crossbeam_queue::{Pass, RuledArrayQueue};
use std::sync::Wait;
use std::thread;

pub(crate) type Queue<S, T> = RuledArrayQueue<Rested<T>, Knows<T>, Law<S, T>>;

// After so many looks for its own thing a keeper lets other threads run: as many as may rest.
const LOOKS: u32 = 8;

// Puts the first thing to rest, while there is no other keeper.
pub(crate) fn put_first<S, T: Restful<S> + Drop, R: Wait>(
    rt: &R,
    queue: &Queue<S, T>,
    pass: &mut Pass<Rested<T>, Knows<T>>,
    first: Rested<T>,
)
    requires queue { IsPassOf queue.now pass.old }
    requires alone { view pass.old ≡ first_keeper }
    requires number { (first.number ≡ 0) × (first.stamp ≡ 1) }
    ensures queue { IsPassOf queue.now pass.new }
    ensures put { view pass.new ≡ putting (view pass.old) first }
{
    let mut resting = first;
    'tries: for _ in rt.forever() {
        match queue.try_push_as::<Puts>(pass, resting) {
            Ok(()) => return,
            Err(back) => resting = back,
        }
        thread::yield_now();
    }
    unreachable!()
}

// Puts a keeper's own thing to rest.
pub(crate) fn put<S, T: Restful<S> + Drop, R: Wait>(
    rt: &R,
    shared: &S,
    queue: &Queue<S, T>,
    pass: &mut Pass<Rested<T>, Knows<T>>,
    own: Rested<T>,
)
    requires queue { IsPassOf queue.now pass.old }
    requires number { own.number ≡ (view pass.old).number }
    requires stamp { own.stamp ≡ (view pass.old).stamp + 1 }
    requires here { T.shares shared.now own.item }
    requires keeps { KeepsOf T.shares shared.now (view pass.old).rests }
    ensures queue { IsPassOf queue.now pass.new }
    ensures put { view pass.new ≡ putting (view pass.old) own }
{
    let _shared = shared;
    let mut resting = own;
    'tries: for _ in rt.forever() {
        match queue.try_push_as::<Puts>(pass, resting) {
            Ok(()) => return,
            Err(back) => resting = back,
        }
        thread::yield_now();
    }
    unreachable!()
}

// Takes a thing out, if one rests and nobody is in the way.
pub(crate) fn take<S, T: Restful<S> + Drop>(
    shared: &S,
    queue: &Queue<S, T>,
    pass: &mut Pass<Rested<T>, Knows<T>>,
) -> Option<Rested<T>>
    requires queue { IsPassOf queue.now pass.old }
    requires keeps { KeepsOf T.shares shared.now (view pass.old).rests }
    ensures queue { IsPassOf queue.now pass.new }
    ensures took { MatchOption result (view pass.new ≡ view pass.old) (λ x. (view pass.new ≡ taking (view pass.old) x) × Finds T.shares T.follows (view pass.old) x × T.shares shared.now x.item) }
{
    let _shared = shared;
    queue.try_pop_as::<Takes<S, T>>(pass)
}

// Puts a thing back that was taken out, maybe further on.
pub(crate) fn give<S, T: Restful<S> + Drop, R: Wait>(
    rt: &R,
    shared: &S,
    queue: &Queue<S, T>,
    pass: &mut Pass<Rested<T>, Knows<T>>,
    taken: Rested<T>,
)
    requires queue { IsPassOf queue.now pass.old }
    requires taken { HasTaken T.shares T.follows shared.now (view pass.old) taken }
    ensures queue { IsPassOf queue.now pass.new }
    ensures gave { view pass.new ≡ without (view pass.old) }
{
    let _shared = shared;
    let mut resting = taken;
    'tries: for _ in rt.forever() {
        match queue.try_push_as::<Gives>(pass, resting) {
            Ok(()) => return,
            Err(back) => resting = back,
        }
        thread::yield_now();
    }
    unreachable!()
}

// The thing, if the keeper with this number has put it to rest as its last. Else it comes back.
fn own_item<T: Drop>(found: Rested<T>, number: u32, stamp: u64) -> Result<T, Rested<T>>
    ensures own { IfOk result (λ x. (x ≡ found.item) × (found.number ≡ number) × (found.stamp ≡ stamp)) }
    ensures other { IfErr result (λ back. back ≡ found) }
{
    if found.number == number && found.stamp == stamp {
        let Rested { item, .. } = found;
        Ok(item)
    } else {
        Err(found)
    }
}

// Lets other threads run, once in so many looks.
fn yield_at_times(looks: &mut u32) {
    *looks = looks.wrapping_add(1);
    if *looks % LOOKS == 0 {
        thread::yield_now();
    }
}

// Takes out what the keeper itself has put to rest last. It looks at all that may rest before it lets other threads run.
// Where it did so after each, threads that take turns on one processor could each find what another one looks for, over
// and over again.
pub(crate) fn take_own<S, T: Restful<S> + Drop, R: Wait>(
    rt: &R,
    shared: &S,
    queue: &Queue<S, T>,
    pass: &mut Pass<Rested<T>, Knows<T>>,
    number: u32,
    stamp: u64,
) -> T
    requires queue { IsPassOf queue.now pass.old }
    requires keeps { KeepsOf T.shares shared.now (view pass.old).rests }
    requires number { (view pass.old).number ≡ number }
    requires stamp { (view pass.old).stamp ≡ stamp }
    ensures queue { IsPassOf queue.now pass.new }
    ensures same { view pass.new ≡ holding (view pass.old) (view pass.new).turns }
    ensures here { T.shares shared.now result }
    ensures follows { (y : _) → (view pass.old).rests ≡ Some y → T.follows y result }
{
    let mut looks = 0;
    'tries: for _ in rt.forever() {
        if let Some(found) = take(shared, queue, pass) {
            match own_item(found, number, stamp) {
                Ok(item) => return item,
                Err(found) => give(rt, shared, queue, pass, found),
            }
        }
        yield_at_times(&mut looks);
    }
    unreachable!()
}

// The first keeper makes another.
pub(crate) fn another<S, T: Restful<S> + Drop>(
    queue: &Queue<S, T>,
    pass: &mut Pass<Rested<T>, Knows<T>>,
) -> Pass<Rested<T>, Knows<T>>
    requires queue { IsPassOf queue.now pass.old }
    requires makes { (view pass.old).makes ≡ true }
    requires keeps { (y : _) × ((view pass.old).rests ≡ Some y) }
    ensures queue { IsPassOf queue.now pass.new × IsPassOf queue.now result }
    ensures made { (view pass.new ≡ one_more (view pass.old)) × (view result ≡ next_keeper (view pass.old)) }
{
    queue.another::<Another>(pass)
}
