//! A run that has no command to make.
ghost use Rattle.run_seats.specs.Shared.Idling.{IsIdleIn, StaysIdle, same_idle, still_idle, stays_on};

use crate::pool::Restful;
use crate::shared::attend;
use heap_rule::Heap;
use run_turns::DomainRun;
use run_turns::singly::Came;

/// The run of a seat that rests. It takes part in the pauses of the others, and runs its finalisers.
#[derive(Drop)]
pub struct Idle {
    pub(crate) run: DomainRun,
}

impl Restful<Heap> for Idle {
    ghost shares = { λ h i. IsIdleIn h i.run };

    ghost follows = { λ a b. StaysIdle a.run b.run };

    fn attend(&mut self, shared: &Heap) -> bool {
        attend(shared, &mut self.run) == Came::On
    }

    ghost follows_itself = { λ t. still_idle t.run };

    ghost follows_on = { λ t u v. stays_on t.run u.run v.run };

    ghost share_alike = { λ s z t u. same_idle s z t.run u.run };
}
