//! A run as a trace that is turned to its end: those of one heap share it.
ghost use Rattle.std.specs.Prelude.{◌≡◌, ◌<◌, ℕ, true, length};
ghost use Rattle.heap_rule.specs.Token.{IsIn};
ghost use Rattle.run_turns.specs.Runs.{GoesOn};
ghost use Rattle.run_turns.specs.Driving.{goes_nowhere, goes_further};

use crate::place::Place;
use crate::run::DomainRun;
use crate::turned::Turned;
use crate::turns::turn;
use heap_rule::Heap;
use run_threads::{Trace, Went};

// A domain that has arrived so often isn't turned any more.
const MOST_ARRIVALS: u64 = 1 << 60;

// How far a turn with this answer came: one that did something and stands in a pause then has arrived. A section that isn't begun
// is held, since nobody tells of a spawn. A join that waits may sleep, since a section tells its end by a turn without a command.
#[inline(always)]
fn reached(turned: Turned, stands: bool, place: Place) -> Went
    ensures ended { result ≡ Went.Ended → turned ≡ Turned.Ended }
    ensures idle { result ≡ Went.Idle → (n : ℕ) × (turned ≡ Turned.Idle n) }
{
    match turned {
        Turned::Did if stands => Went::Arrived,
        Turned::Did => Went::On,
        Turned::Held { .. } if place == Place::Before => Went::Held,
        Turned::Held { .. } | Turned::Waiting(_) | Turned::Hungry => Went::Nowhere,
        Turned::Idle { .. } => Went::Idle,
        Turned::Ended => Went::Ended,
    }
}

/// A domain that has arrived 2^60 times isn't turned any more: its turns come nowhere.
impl Trace<Heap> for DomainRun {
    ghost shares = { λ h r. IsIn r.token h };

    ghost follows = { GoesOn };

    ghost is_over = { λ r. r.ended ≡ true };

    ghost index = { λ r. r.next };

    ghost has_more = { λ r. r.next < length r.commands };

    ghost follows_itself = { goes_nowhere };

    ghost follows_on = { goes_further };

    fn number(&self, shared: &Heap) -> u32 {
        let _config = shared.config();
        self.domain.number()
    }

    #[inline(always)]
    fn next_index(&self) -> u32 {
        self.shows_faithful();
        self.next() as u32
    }

    #[inline(always)]
    fn has_next(&self) -> bool {
        DomainRun::has_next(self)
    }

    #[inline(always)]
    fn turn(&mut self, shared: &Heap) -> Went
        requires here { IsIn self.old.token shared.now }
        ensures here { IsIn self.new.token shared.now }
        ensures follows { GoesOn self.old self.new }
        ensures over { result ≡ Went.Ended → self.new.ended ≡ true }
        ensures idle { result ≡ Went.Idle → self.new.ended ≡ true }
    {
        if self.domain().arrivals() >= MOST_ARRIVALS {
            return Went::Nowhere;
        }
        let turned = turn(shared, self);
        reached(turned, self.left.is_some(), self.place)
    }
}
