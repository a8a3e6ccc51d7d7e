//! The first way of a command: at once, or it is handed in.
ghost use Rattle.std.specs.Prelude.{◌≡◌, ◌⊎◌, None, IfSome};
ghost use Rattle.heap_rule.specs.Token.{IsIn};
ghost use Rattle.run_turns.specs.Runs.{AddsRan, MaySubmit, NowAnswers};
ghost use Rattle.heap_rule.specs.Limits.{sizes_in};
ghost use Rattle.run_turns.specs.Singly.Driving.{Answered, Awaits};
ghost use Rattle.run_alone.specs.Lone.{IsLone};
ghost use Rattle.run_alone.specs.Paces.{last_of};

use heap_rule::Heap;
use model_core::command::Command;
use model_core::reply::Reply;
use run_turns::DomainRun;

// Makes a command at once, where the domain runs and that can be, and answers its reply.
#[inline(always)]
fn at_once(heap: &Heap, run: &mut DomainRun, command: Command) -> Option<Reply>
    requires here { IsIn run.old.token heap.now }
    requires may { MaySubmit run.old command }
    ensures here { IsIn run.new.token heap.now }
    ensures answer { NowAnswers heap.now run.old run.new command result }
    ensures stays { (run.old.left ≡ None) ⊎ (run.new ≡ run.old) }
{
    if !run.running() {
        return None;
    }
    run.perform_now(heap, command)
}

/// Makes a command at once, as `perform_now` does, and answers its reply. Where it isn't made so it is handed in.
#[inline(always)]
pub fn hand_in(heap: &Heap, run: &mut DomainRun, command: Command) -> Option<Reply>
    requires here { IsIn run.old.token heap.now }
    requires alone { heap.now.config.domains ≡ 1 }
    requires may { MaySubmit run.old command }
    ensures lone { IsLone heap.now run.new }
    ensures made { IfSome result (λ reply. Answered heap.now run.old.token.view command reply run.new) }
    ensures awaits { result ≡ None → Awaits heap.now run.old.token.view command run.new }
    ensures unasked { run.new.asked ≡ None }
    ensures ran { AddsRan (sizes_in heap.now.config) run.old run.new }
    ensures last { last_of heap.now.config run.new ≡ last_of heap.now.config run.old }
    ensures arrivals { run.new.token.view.own.arrivals ≡ run.old.token.view.own.arrivals }
{
    if let Some(reply) = at_once(heap, run, command) {
        run.shows_faithful();
        return Some(reply);
    }
    run.submit(command);
    run.shows_faithful();
    None
}
