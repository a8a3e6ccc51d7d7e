//! A domain by whose loads a search walks.
ghost use Rattle.std.specs.Prelude.{◌≡◌, None, IfSome};
ghost use Rattle.run_turns.specs.Runs.{MaySubmit, NowAnswers};
ghost use Rattle.run_seats.specs.Shared.Sharing.{IsRefusedBy};

use crate::shared::shared::SharedRun;
use crate::shared::standing::Standing;
use model_core::command::Command;
use model_core::reply::Reply;
use model_laws::reach::walker::Walker;
use run_turns::show;

impl Walker for SharedRun {
    type Home = Standing;

    ghost use Rattle.heap_rule.specs.Limits.{sizes_in};
    ghost use Rattle.run_seats.specs.Shared.Standing.{standing_of};

    ghost home = { standing_of };

    ghost sizes = { λ s. sizes_in s.heap.config };

    ghost number = { λ s. s.run.token.view.own.number };

    ghost front = { λ s. s.run.token.view.seen.front };

    fn shows_limits(&self) {
        let _config = self.heap.config();
    }

    fn show(&mut self, r: u8) -> Reply {
        show(&self.heap, &mut self.run, r)
    }

    fn perform(&mut self, c: Command) -> Option<Reply> {
        if self.refuses(&c).is_some() {
            return None;
        }
        self.run.perform_now(&self.heap, c)
    }
}
