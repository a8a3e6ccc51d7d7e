//! The first way of a command: at once, without a turn.
ghost use Rattle.heap_rule.specs.Limits.{sizes_in};
ghost use Rattle.heap_rule.specs.Token.{IsIn};
ghost use Rattle.run_turns.specs.Runs.{AddsRan, MaySubmit};
ghost use Rattle.run_turns.specs.Singly.Driving.{AwaitAnswers};

use crate::DomainRun;
use heap_rule::Heap;
use model_core::command::Command;
use model_core::reply::Reply;

/// Makes the next command of a run at once, where that can be, and answers the reply. Else the command is handed in,
/// and the run has it to make.
#[inline(always)]
pub fn begin(heap: &Heap, run: &mut DomainRun, command: Command) -> Option<Reply>
    requires here { IsIn run.old.token heap.now }
    requires may { MaySubmit run.old command }
    ensures here { IsIn run.new.token heap.now }
    ensures answers { AwaitAnswers heap.now run.old.token.view command run.new result }
    ensures ran { AddsRan (sizes_in heap.now.config) run.old run.new }
{
    if let Some(reply) = run.perform_now(heap, command) {
        return Some(reply);
    }
    run.submit(command);
    None
}
