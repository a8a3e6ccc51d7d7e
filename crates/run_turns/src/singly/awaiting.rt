//! The turn of a run that has a command to make.
ghost use Rattle.std.specs.Prelude.{◌≡◌, true};
ghost use Rattle.heap_rule.specs.Limits.{sizes_in};
ghost use Rattle.heap_rule.specs.Token.{IsIn};
ghost use Rattle.run_turns.specs.declared.singly.turning.Came as far;
ghost use Rattle.run_turns.specs.Runs.{GoesOn, Stretches};
ghost use Rattle.run_turns.specs.Singly.Driving.{AnswersAwaited};
ghost use Rattle.run_turns.specs.Singly.Turning.{CameTo};

use crate::DomainRun;
use crate::singly::turning::{Came, turn_below};
use heap_rule::Heap;
use model_core::reply::Reply;

/// One turn of a run that has a command to make. Answers how far it came, and the reply, once the command is
/// made.
pub fn await_turn(heap: &Heap, run: &mut DomainRun) -> (Came, Option<Reply>)
    requires here { IsIn run.old.token heap.now }
    ensures here { IsIn run.new.token heap.now }
    ensures came { CameTo heap.now run.old run.new result.0 }
    ensures exact { (other : far.Came) → CameTo heap.now run.old run.new other → other ≡ result.0 }
    ensures stretch { Stretches (sizes_in heap.now.config) run.old run.new }
    ensures goes_on { GoesOn run.old run.new }
    ensures answers { AnswersAwaited heap.now run.old run.new result.1 }
    ensures ended { result.0 ≡ Came.Ended → run.new.ended ≡ true }
{
    let came = turn_below(heap, run);
    (came, run.answer())
}
