//! Commands that are made at once, without a turn.
ghost use Rattle.std.specs.Prelude.{◌≡◌, ◌≢◌, ◌≤◌, true, false, [], length, vec_capacity, None};
ghost use Rattle.model_core.specs.declared.command.Command.TheVariants.{Poll};
ghost use Rattle.heap_rule.specs.Token.{IsIn};
ghost use Rattle.run_turns.specs.Runs.{IsUnqueued, MaySubmit, NowAnswers, TriesNow};

use crate::command::{Attempt, try_command};
use crate::run::DomainRun;
use crate::turns::find_wants;
use heap_rule::Heap;
use model_core::command::Command;
use model_core::reply::Reply;

// Whether it is a command before which the domain works for the collector.
#[inline(always)]
fn is_poll(command: &Command) -> bool
    ensures yes { result ≡ true → command.now ≡ Poll }
    ensures no { result ≡ false → command.now ≢ Poll }
{
    matches!(command, Command::Poll)
}

// Forgets the command that was handed in last, and its reply. Mostly there is none: then nothing is written.
#[inline(always)]
#[tactic(auto, using(crate::proofs::AtOnce::no_items))]
fn forget(commands: &mut Vec<Command>, next: &mut usize, replies: &mut Vec<Reply>)
    requires within { next.old ≤ length commands.old.items }
    requires answered { length replies.old.items ≡ next.old }
    ensures commands { commands.new.items ≡ [] }
    ensures next { next.new ≡ 0 }
    ensures replies { replies.new.items ≡ [] }
    ensures one { vec_capacity commands.new ≡ vec_capacity commands.old }
    ensures room { vec_capacity replies.new ≡ vec_capacity replies.old }
{
    if commands.is_empty() {
        return;
    }
    commands.clear();
    *next = 0;
    replies.clear();
}

// Tries a command of a running domain that found no pause wanted. Answers its reply, unless a pause must
// come first or it is refused.
#[inline(always)]
fn try_now(heap: &Heap, run: &mut DomainRun, command: &Command) -> Option<Reply>
    requires here { IsIn run.old.token heap.now }
    requires may { MaySubmit run.old command.now }
    requires left { run.old.left ≡ None }
    requires unqueued { IsUnqueued run.old.token }
    ensures here { IsIn run.new.token heap.now }
    ensures answer { TriesNow heap.now run.old run.new command.now result }
{
    match try_command(heap, &mut run.domain, command, false, false) {
        Attempt::Made(reply) => {
            forget(&mut run.commands, &mut run.next, &mut run.replies);
            run.asked = None;
            run.collected = false;
            run.due = 0;
            Some(reply)
        }
        Attempt::Needs(_) | Attempt::NoRoom => None,
    }
}

impl DomainRun {
    /// Makes the next command of an open run whose last command is done, without a turn, and answers its
    /// reply. The conditions are those of [`submit`](DomainRun::submit). The run then keeps neither the command nor
    /// its reply.
    ///
    /// It is made so exactly where the domain runs, no finaliser waits in its queue, it is no `poll`, no pause is
    /// wanted, and none must come first, as for a `minor`, a `major`, a `full_major`, an allocation that finds no
    /// room, or a store where no more word can be remembered. Else the run has the command that it had, and
    /// nothing has changed but what was looked at, and what a sweep of own pools changes.
    #[inline(always)]
    #[tactic(auto, using(crate::proofs::AtOnce::arrived_off, crate::proofs::AtOnce::owes_off, crate::proofs::AtOnce::works_off, crate::proofs::AtOnce::some_waits))]
    pub fn perform_now(&mut self, heap: &Heap, command: Command) -> Option<Reply>
        requires here { IsIn self.old.token heap.now }
        requires may { MaySubmit self.old command }
        ensures here { IsIn self.new.token heap.now }
        ensures answer { NowAnswers heap.now self.old self.new command result }
    {
        if self.left.is_some() {
            return None;
        }
        if self.domain.queued() != 0 {
            return None;
        }
        if is_poll(&command) {
            return None;
        }
        if find_wants(heap, self) != 0 {
            return None;
        }
        try_now(heap, self, &command)
    }
}
