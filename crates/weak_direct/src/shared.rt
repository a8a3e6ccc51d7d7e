//! A domain with a share of its heap, as the calls take it.
ghost use Rattle.std.specs.Prelude.{◌≡◌, ◌-◌};

use crate::direct::Direct;
use model_core::command::Command;
use model_core::reply::Reply;
use run_seats::shared::{SharedRun, Standing};

impl Direct for SharedRun {
    type Heap = Standing;

    ghost use Rattle.heap_rule.specs.Limits.{sizes_in};
    ghost use Rattle.run_seats.specs.Shared.Standing.{standing_of};

    ghost heap = { standing_of };

    ghost sizes = { λ s. sizes_in s.heap.config };

    ghost domain = { λ s. s.run.token.view.own.number };

    ghost front = { λ s. s.run.token.view.seen.front };

    ghost labels_left = { λ s. 4294967295 - s.run.token.view.own.serial };

    ghost ephes_room = { λ s. s.run.token.view.own.ephemerons.room };

    fn shows_inside(&self) {
        self.shows_here();
    }

    fn domains(&self) -> u32 {
        SharedRun::domains(self)
    }

    fn show(&mut self, r: u8) -> Reply {
        self.shows_here();
        match SharedRun::show(self, r) {
            Some(reply) => reply,
            None => Reply::Empty,
        }
    }

    #[inline(always)]
    fn perform(&mut self, c: Command) -> Option<Reply> {
        self.shows_here();
        let made = self.make_now(c);
        self.labels_left();
        match made {
            Ok(reply) => reply,
            Err(_) => None,
        }
    }
}
