//! What a register of a run holds.
ghost use Rattle.std.specs.Prelude.{◌≡◌, ◌<◌};
ghost use Rattle.heap_rule.specs.Token.{IsIn};
ghost use Rattle.run_turns.specs.Runs.{HasLooked, shown_in};

use crate::run::DomainRun;
use do_fields::fields::shown_register;
use gc_pause::stops::wants;
use heap_rule::Heap;
use model_core::reply::Reply;

/// The reply that shows what a register of the run's domain holds: `int` with an integer, `blk` with the
/// label of a block, or `none`. The register is below 16. No entry is made: the domain notes the want word,
/// by whose load it knows that its register holds what it holds in the state, and nothing else changes.
pub fn show(heap: &Heap, run: &mut DomainRun, r: u8) -> Reply
    requires here { IsIn run.old.token heap.now }
    requires few { r < 16 }
    ensures here { IsIn run.new.token heap.now }
    ensures looked { HasLooked run.old run.new }
    ensures reply { result ≡ shown_in heap.now.config run.old.token r }
{
    wants(heap, &mut run.domain);
    shown_register(heap, &mut run.domain, r)
}
