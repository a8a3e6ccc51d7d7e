//! The loop by which a command is made that isn't made at once.
ghost use Rattle.std.specs.Prelude.{◌≡◌};
ghost use Rattle.heap_rule.specs.Limits.{sizes_in};
ghost use Rattle.heap_rule.specs.Token.{IsIn};
ghost use Rattle.run_turns.specs.Runs.{AddsRan, IsHandedIn};
ghost use Rattle.run_turns.specs.Singly.Driving.{AnswersAwaited};

use crate::DomainRun;
use crate::singly::awaiting::await_turn;
use crate::singly::meanwhile::Meanwhile;
use heap_rule::Heap;
use model_core::reply::Reply;
use std::sync::Wait;

/// Turns a run that has a command to make until it is made, and answers the reply. Between two turns something else is
/// done, with what is kept for it.
#[inline(never)]
pub fn await_reply<R: Wait, K, M: Meanwhile<K>>(
    rt: &R,
    heap: &Heap,
    run: &mut DomainRun,
    meanwhile: &mut M,
    kept: &mut K,
) -> Reply
    requires here { IsIn run.old.token heap.now }
    requires fits { M.fits heap.now meanwhile.old kept.old }
    ensures here { IsIn run.new.token heap.now }
    ensures same { kept.new ≡ kept.old }
    ensures answered { AnswersAwaited heap.now run.old run.new (Some result) }
    ensures ran { IsHandedIn run.old.supply → AddsRan (sizes_in heap.now.config) run.old run.new }
{
    'turns: for _ in rt.forever() {
        meanwhile.before_turn();
        let (came, reply) = await_turn(heap, run);
        if let Some(reply) = reply {
            meanwhile.behind_last(run);
            return reply;
        }
        meanwhile.behind_turn(rt, heap, kept, came);
    }
    unreachable!()
}
