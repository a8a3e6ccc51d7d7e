//! The turns by which a command is made.
ghost use Rattle.std.specs.Prelude.{◌≡◌};
ghost use Rattle.heap_rule.specs.Limits.{sizes_in};
ghost use Rattle.heap_rule.specs.Token.{IsIn};
ghost use Rattle.run_turns.specs.Runs.{AddsRan, MaySubmit};
ghost use Rattle.run_turns.specs.Singly.Driving.{Answered};
ghost use Rattle.run_seats.specs.Shared.Idling.{IsIdleIn, StaysIdle};
ghost use Rattle.run_seats.specs.Idling.{KeepsHeap};

use crate::idle::Idle;
use crate::pool::{Keeper, Pool};
use crate::shared::attend;
use crossbeam_utils::sync::{EventCount, Key};
use heap_rule::Heap;
use model_core::command::Command;
use model_core::reply::Reply;
use run_threads::Waiter;
use run_turns::DomainRun;
use run_turns::singly::{Came, Meanwhile, await_reply, begin};
use std::sync::Wait;

// How many things rest at most.
const MOST_RESTING: u32 = 8;

// Takes domains along that rest, until one came on. Answers whether one did. It looks at as many as there may be: with
// one alone a thread could sleep while another one that rests has something to do.
fn help_any<R: Wait>(
    rt: &R,
    heap: &Heap,
    pool: &Pool<Heap, Idle>,
    keeper: &mut Keeper<Idle>,
) -> bool
    requires pool { keeper.old.pool ≡ pool.now }
    requires keeps { KeepsHeap heap.now keeper.old.rests }
    ensures same { keeper.new ≡ keeper.old }
{
    'resting: for _ in 0..MOST_RESTING {
        if pool.help(rt, heap, keeper) {
            return true;
        }
    }
    false
}

// What a seat does between two turns: where one came on, it tells the others. Else it takes domains along that rest, and
// waits where none of them comes on either.
#[derive(Drop)]
struct Along<'a> {
    pool: &'a Pool<Heap, Idle>,
    events: &'a EventCount,
    waiter: Waiter<'a>,
    // A sleep that was announced before the last turn.
    announced: Option<Key<'a>>,
}

impl<'a> Along<'a> {
    // One that hasn't waited so far.
    fn new(pool: &'a Pool<Heap, Idle>, events: &'a EventCount) -> Along<'a>
        ensures { result.pool ≡ pool.entry }
    {
        Along {
            pool,
            events,
            waiter: Waiter::new(events),
            announced: None,
        }
    }
}

impl<'a> Meanwhile<Keeper<Idle>> for Along<'a> {
    ghost fits = { λ h s k. (k.pool ≡ s.pool.now) × KeepsHeap h k.rests };

    fn before_turn(&mut self) {
        self.announced = self.waiter.announced();
    }

    fn behind_turn<R: Wait>(&mut self, rt: &R, heap: &Heap, kept: &mut Keeper<Idle>, came: Came) {
        let announced = self.announced.take();
        if came == Came::On || help_any(rt, heap, self.pool, kept) {
            self.events.notify_all();
            self.waiter.went_on();
        } else {
            self.waiter.wait(rt, announced);
        }
    }

    fn behind_last(&mut self, run: &DomainRun) {
        if !run.running() {
            self.events.notify_all();
        }
    }
}

// Makes the next command of a run, and answers the reply.
#[inline(always)]
pub(crate) fn perform_on<R: Wait>(
    rt: &R,
    heap: &Heap,
    pool: &Pool<Heap, Idle>,
    events: &EventCount,
    run: &mut DomainRun,
    keeper: &mut Keeper<Idle>,
    command: Command,
) -> Reply
    requires here { IsIn run.old.token heap.now }
    requires may { MaySubmit run.old command }
    requires pool { keeper.old.pool ≡ pool.now }
    requires keeps { KeepsHeap heap.now keeper.old.rests }
    ensures here { IsIn run.new.token heap.now }
    ensures same { keeper.new ≡ keeper.old }
    ensures answered { Answered heap.now run.old.token.view command result run.new }
    ensures ran { AddsRan (sizes_in heap.now.config) run.old run.new }
{
    if let Some(reply) = begin(heap, run, command) {
        return reply;
    }
    await_reply(rt, heap, run, &mut Along::new(pool, events), keeper)
}

// Turns a run that has no command to make until no pause is wanted and none goes on.
pub(crate) fn attend_calls<R: Wait>(
    rt: &R,
    heap: &Heap,
    pool: &Pool<Heap, Idle>,
    events: &EventCount,
    run: &mut DomainRun,
    keeper: &mut Keeper<Idle>,
)
    requires idle { IsIdleIn heap.now run.old }
    requires pool { keeper.old.pool ≡ pool.now }
    requires keeps { KeepsHeap heap.now keeper.old.rests }
    ensures idle { IsIdleIn heap.now run.new }
    ensures stays { StaysIdle run.old run.new }
    ensures same { keeper.new ≡ keeper.old }
{
    let mut along = Along::new(pool, events);
    'turns: for _ in rt.forever() {
        along.before_turn();
        let came = attend(heap, run);
        if came == Came::Done {
            return;
        }
        along.behind_turn(rt, heap, keeper, came);
    }
    unreachable!()
}
