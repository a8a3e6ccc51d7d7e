//! A command that is made at once, or not at all.
ghost use Rattle.std.specs.Prelude.{◌≡◌, ◌+◌, ◌<◌, IfOk, IfErr};
ghost use Rattle.model_core.specs.Domains.{IsWithinLimits};
ghost use Rattle.heap_rule.specs.Limits.{sizes_in};
ghost use Rattle.heap_rule.specs.Token.{IsIn};
ghost use Rattle.run_turns.specs.Runs.{MaySubmit, NowAnswers};
ghost use Rattle.run_seats.specs.Shared.Sharing.{IsRefusedBy};

use crate::shared::shared::{Refused, SharedRun};
use model_core::command::Command;
use model_core::reply::Reply;

impl SharedRun {
    /// Makes the next command at once, where that can be, and answers the reply. It is taken where
    /// [`submit`](SharedRun::submit) takes it. None where a pause is wanted or must come first: then no command is handed in,
    /// and nothing has changed but what was looked at, and what a sweep of own pools changes.
    #[inline(always)]
    pub fn make_now(&mut self, command: Command) -> Result<Option<Reply>, Refused>
        ensures heap { self.new.heap ≡ self.old.heap }
        ensures may { IfOk result (λ _. MaySubmit self.old.run command) }
        ensures answers { IfOk result (λ r. NowAnswers self.old.heap self.old.run self.new.run command r) }
        ensures why { IfErr result (IsRefusedBy self.old command) }
        ensures same { IfErr result (λ _. self.new ≡ self.old) }
    {
        if let Some(why) = self.refuses(&command) {
            return Err(why);
        }
        Ok(self.run.perform_now(&self.heap, command))
    }

    /// Nothing changes. The domain is one of its heap's, whose numbers are within their limits.
    pub fn shows_here(&self)
        ensures here { IsIn self.now.run.token self.now.heap }
        ensures inside { self.now.run.token.view.own.number < self.now.heap.config.domains }
        ensures limits { IsWithinLimits (sizes_in self.now.heap.config) }
    {
        let _config = self.heap.config();
        let _number = self.run.domain().number();
    }

    /// How many domains the heap has.
    pub fn domains(&self) -> u32
        ensures { result ≡ self.now.heap.config.domains }
    {
        self.heap.config().domains
    }

    /// How many labels are left for the domain's blocks: 4,294,967,295 less those that were given out.
    pub fn labels_left(&self) -> u32
        ensures { result + self.now.run.token.view.own.serial ≡ 4294967295 }
    {
        u32::MAX - self.run.domain().labels_made()
    }

    /// How many more ephemerons fit.
    pub fn ephes_room(&self) -> usize
        ensures { result ≡ self.now.run.token.view.own.ephemerons.room }
    {
        self.run.domain().ephes_room()
    }
}
