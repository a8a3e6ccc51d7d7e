//! A domain that has no command to make.
ghost use Rattle.std.specs.Prelude.{◌≡◌};
ghost use Rattle.heap_rule.specs.Token.{IsIn};
ghost use Rattle.run_seats.specs.Shared.Idling.{IsIdleIn, StaysIdle};
ghost use Rattle.run_seats.specs.Shared.Leaving.{RestsOn, rests_on, rests_still};

use crate::beds::Restful;
use crate::shared::shared::SharedRun;
use heap_rule::Heap;
use run_turns::DomainRun;
use run_turns::singly::{Came, turn_below};
use std::marker::Model;

/// One turn of a run that has no command to make. It takes part in the pauses of the others, and runs its finalisers.
pub fn attend(heap: &Heap, run: &mut DomainRun) -> Came
    requires here { IsIdleIn heap.now run.old }
    ensures here { IsIdleIn heap.now run.new }
    ensures stays { StaysIdle run.old run.new }
{
    turn_below(heap, run)
}

/// A domain that rests. Where its trace is open and it has no command to make it waits for its next one; else it has left,
/// and is closed as soon as it can be.
#[derive(Drop)]
pub struct Idle {
    run: Box<SharedRun>,
}

impl Model for Idle {
    ghost use Rattle.run_seats.specs.Shared.Sharing.{SharedView};

    ghost Value = { SharedView };

    ghost view = { λ i. i.run.value };
}

impl Idle {
    // A domain that is to rest.
    pub(crate) fn of(run: Box<SharedRun>) -> Idle
        ensures { result ≡ run.value }
    {
        Idle { run }
    }

    // The domain.
    pub(crate) fn into_run(self) -> Box<SharedRun>
        ensures { result.value ≡ self }
    {
        let Idle { run } = self;
        run
    }
}

impl Restful for Idle {
    ghost follows = { RestsOn };

    fn attend(&mut self) -> bool {
        let came = match self.run.may_close() {
            Ok(()) => self.run.attend(),
            Err(_) => self.run.turn_left(),
        };
        came == Came::On
    }

    ghost follows_itself = { rests_still };

    ghost follows_on = { rests_on };
}
