//! A domain with a share of its heap.
ghost use Rattle.std.specs.Prelude.{◌≡◌, ◌≢◌, ◌↔◌, ◌≤◌, true, length, slice_get, None, IfOk, IfErr, IfSome};
ghost use Rattle.heap_rule.specs.Limits.{sizes_in};
ghost use Rattle.heap_rule.specs.Token.{IsIn};
ghost use Rattle.run_turns.specs.declared.supply.Supply.TheVariants.{Open};
ghost use Rattle.run_turns.specs.declared.singly.turning.Came as far;
ghost use Rattle.run_turns.specs.Runs.{AddsRan, GoesOn, HasLooked, IsLastReply, IsUnanswered, MaySubmit, Stretches, answer_of};
ghost use Rattle.run_turns.specs.Singly.Counting.{stats_of};
ghost use Rattle.run_turns.specs.Singly.Driving.{AnswersAwaited, AwaitAnswers};
ghost use Rattle.run_turns.specs.Singly.Turning.{CameTo};
ghost use Rattle.run_seats.specs.Shared.Idling.{StaysAlong};
ghost use Rattle.run_seats.specs.Shared.Leaving.{HasLeft, IsLeftAs, LeavesOn};
ghost use Rattle.run_seats.specs.Shared.Sharing.{IsRefusedBy, IsUnclosedBy, MayClose, closed_of, shown_by, taken_of, with_command};

use crate::shared::idle::attend;
use heap_rule::Heap;
use model_core::command::Command;
use model_core::reply::Reply;
use run_turns::singly::{Came, Refusal, Stats, await_turn, begin, counts, refuses, turn_below};
use run_turns::{DomainRun, Supply, show};
use std::marker::Model;
use std::sync::Arc;

/// Why a command isn't taken. Nothing has changed then.
#[derive(Clone, Copy, Debug, PartialEq, Eq)]
pub enum Refused {
    /// The trace is closed.
    Closed,
    /// The command before isn't done.
    Busy,
    /// The command lacks something.
    Unfit(Refusal),
}

/// A domain that gets its commands handed in, with a share of its heap. It may move between threads. Contracts see the
/// heap and the run.
#[derive(Drop)]
pub struct SharedRun {
    pub(crate) heap: Arc<Heap>,
    pub(crate) run: DomainRun,
}

impl Model for SharedRun {
    ghost use Rattle.heap_rule.specs.Token.{IsIn};
    ghost use Rattle.run_seats.specs.Shared.Sharing.{SharedView};

    ghost Value = { SharedView };

    ghost view = { λ s. record { heap = s.heap.value; run = s.run } };

    ghost invariant = { λ s. IsIn s.run.token s.heap.value };
}

impl SharedRun {
    /// A run with a share of its heap.
    pub fn of(heap: Arc<Heap>, run: DomainRun) -> SharedRun
        requires here { IsIn run.token heap.value }
        ensures { result ≡ record { heap = heap.value; run = run } }
    {
        SharedRun { heap, run }
    }

    /// The share of the heap, and the run.
    pub fn into_parts(self) -> (Arc<Heap>, DomainRun)
        ensures heap { result.0.value ≡ self.heap }
        ensures run { result.1 ≡ self.run }
        ensures here { IsIn self.run.token self.heap }
    {
        let SharedRun { heap, run } = self;
        (heap, run)
    }

    // Why no command is taken, or not this one.
    #[inline(always)]
    pub(crate) fn refuses(&self, command: &Command) -> Option<Refused>
        ensures none { result ≡ None → MaySubmit self.now.run command.now }
        ensures why { IfSome result (IsRefusedBy self.now command.now) }
    {
        if self.run.supply() != Supply::Open {
            return Some(Refused::Closed);
        }
        self.run.shows_faithful();
        if self.run.has_next() {
            return Some(Refused::Busy);
        }
        let _config = self.heap.config();
        let domain = self.run.domain();
        let labels = u32::MAX - domain.labels_made();
        let why = refuses(command, domain.ephes_room(), self.run.finals_left(), labels)?;
        Some(Refused::Unfit(why))
    }

    /// Hands in the next command. It is taken where the trace is open, the command before is done, and the command lacks
    /// nothing: it fits the shared heap, and there are room for its ephemeron and its finaliser, and a label for its
    /// block. Else nothing changes.
    pub fn submit(&mut self, command: Command) -> Result<(), Refused>
        ensures may { IfOk result (λ _. MaySubmit self.old.run command) }
        ensures taken { IfOk result (λ _. self.new ≡ with_command self.old command) }
        ensures why { IfErr result (IsRefusedBy self.old command) }
        ensures same { IfErr result (λ _. self.new ≡ self.old) }
    {
        if let Some(why) = self.refuses(&command) {
            return Err(why);
        }
        self.run.submit(command);
        Ok(())
    }

    /// Makes the next command at once, where that can be, and answers the reply; else hands it in. It is taken where
    /// [`submit`](SharedRun::submit) takes it, and else nothing changes.
    #[inline(always)]
    pub fn begin(&mut self, command: Command) -> Result<Option<Reply>, Refused>
        ensures heap { self.new.heap ≡ self.old.heap }
        ensures may { IfOk result (λ _. MaySubmit self.old.run command) }
        ensures answers { IfOk result (AwaitAnswers self.old.heap self.old.run.token.view command self.new.run) }
        ensures ran { IfOk result (λ _. AddsRan (sizes_in self.old.heap.config) self.old.run self.new.run) }
        ensures why { IfErr result (IsRefusedBy self.old command) }
        ensures same { IfErr result (λ _. self.new ≡ self.old) }
    {
        if let Some(why) = self.refuses(&command) {
            return Err(why);
        }
        Ok(begin(&self.heap, &mut self.run, command))
    }

    /// One turn of the domain: what it may do next it does, and it says how far it came. A domain that has arrived 2^60
    /// times isn't turned any more.
    pub fn turn(&mut self) -> Came
        ensures heap { self.new.heap ≡ self.old.heap }
        ensures came { CameTo self.old.heap self.old.run self.new.run result }
        ensures exact { (other : far.Came) → CameTo self.old.heap self.old.run self.new.run other → other ≡ result }
        ensures stretch { Stretches (sizes_in self.old.heap.config) self.old.run self.new.run }
        ensures goes_on { GoesOn self.old.run self.new.run }
        ensures ended { result ≡ Came.Ended → self.new.run.ended ≡ true }
    {
        turn_below(&self.heap, &mut self.run)
    }

    /// One turn of a domain that has a command to make. Answers how far it came, and the reply, once the command is made.
    /// A domain that has none makes none.
    pub fn await_turn(&mut self) -> (Came, Option<Reply>)
        ensures heap { self.new.heap ≡ self.old.heap }
        ensures came { CameTo self.old.heap self.old.run self.new.run result.0 }
        ensures exact { (other : far.Came) → CameTo self.old.heap self.old.run self.new.run other → other ≡ result.0 }
        ensures stretch { Stretches (sizes_in self.old.heap.config) self.old.run self.new.run }
        ensures goes_on { GoesOn self.old.run self.new.run }
        ensures answers { AnswersAwaited self.old.heap self.old.run self.new.run result.1 }
        ensures idle { MayClose self.old → StaysAlong self.old self.new }
        ensures ended { result.0 ≡ Came.Ended → (self.new.run.ended ≡ true) × (self.new.run.supply ≢ Open) }
    {
        let told = await_turn(&self.heap, &mut self.run);
        self.run.shows_faithful();
        told
    }

    /// The reply to the command that was handed in last. None exactly where that isn't done yet or none was handed in.
    pub fn answer(&self) -> Option<Reply>
        ensures answer { result ≡ answer_of self.now.run }
        ensures none { (result ≡ None) ↔ IsUnanswered self.now.run }
        ensures of_history { IfSome result (IsLastReply self.now.run) }
    {
        self.run.answer()
    }

    /// How many finalisers ran whose replies wait to be taken.
    pub fn ran_len(&self) -> usize
        ensures { result ≡ length self.now.run.ran }
    {
        self.run.ran_len()
    }

    /// The reply at this place of those of finalisers that ran and wait to be taken, from the oldest at 0 on. None exactly
    /// where fewer wait.
    pub fn ran(&self, place: usize) -> Option<Reply>
        ensures { result ≡ slice_get self.now.run.ran place }
    {
        self.run.ran(place)
    }

    /// Takes the oldest reply of a finaliser that ran and wasn't taken so far, which makes room for a finaliser more. None
    /// exactly where none waits. It may also be taken once the trace has ended.
    pub fn take_ran(&mut self) -> Option<Reply>
        ensures oldest { result ≡ slice_get self.old.run.ran 0 }
        ensures others { self.new ≡ taken_of self.old }
    {
        self.run.take_ran()
    }

    /// The reply that shows what a register holds. None exactly where there is no such register. No entry is made.
    pub fn show(&mut self, r: u8) -> Option<Reply>
        ensures none { (result ≡ None) ↔ (16 ≤ r) }
        ensures heap { self.new.heap ≡ self.old.heap }
        ensures looked { IfSome result (λ _. HasLooked self.old.run self.new.run) }
        ensures reply { IfSome result (λ a. a ≡ shown_by self.old r) }
        ensures same { result ≡ None → self.new ≡ self.old }
    {
        if r >= 16 {
            return None;
        }
        Some(show(&self.heap, &mut self.run, r))
    }

    /// No command comes any more: the trace ends in a later turn, behind the finalisers that wait. Refused where the last
    /// command that was handed in isn't done, or where the trace was closed before.
    pub fn close(&mut self) -> Result<(), Refused>
        ensures may { IfOk result (λ _. MayClose self.old) }
        ensures closed { IfOk result (λ _. self.new ≡ closed_of self.old) }
        ensures why { IfErr result (IsUnclosedBy self.old) }
        ensures same { IfErr result (λ _. self.new ≡ self.old) }
    {
        self.may_close()?;
        self.run.close();
        Ok(())
    }

    /// Whether it can be closed, as it can where it takes the next command, and else why not.
    pub fn may_close(&self) -> Result<(), Refused>
        ensures may { IfOk result (λ _. MayClose self.now) }
        ensures why { IfErr result (IsUnclosedBy self.now) }
    {
        if self.run.supply() != Supply::Open {
            return Err(Refused::Closed);
        }
        self.run.shows_faithful();
        if self.run.has_next() {
            return Err(Refused::Busy);
        }
        Ok(())
    }

    /// No command comes any more, where that can be said: it has no command to make, and its trace isn't closed yet.
    pub fn shuts(&mut self)
        ensures { IsLeftAs self.old self.new }
    {
        if let Ok(()) = self.may_close() {
            self.run.close();
        }
    }

    // One turn of a domain that has left.
    pub(crate) fn turn_left(&mut self) -> Came
        requires left { HasLeft self.old }
        ensures on { LeavesOn self.old self.new }
    {
        let came = self.turn();
        self.shuts();
        came
    }

    // One turn of a domain that has no command to make.
    pub(crate) fn attend(&mut self) -> Came
        requires may { MayClose self.old }
        ensures may { MayClose self.new }
        ensures along { StaysAlong self.old self.new }
    {
        attend(&self.heap, &mut self.run)
    }

    /// Whether the domain's trace has ended.
    pub fn has_ended(&self) -> bool
        ensures { result ≡ self.now.run.ended }
    {
        self.run.has_ended()
    }

    /// What the domain counts.
    pub fn stats(&self) -> Stats
        ensures { result ≡ stats_of self.now.run.token.view.own }
    {
        counts(&self.run)
    }

    /// The domain's number.
    pub fn number(&self) -> u32
        ensures { result ≡ self.now.run.token.view.own.number }
    {
        self.run.domain().number()
    }
}
