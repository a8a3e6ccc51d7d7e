//! The turn in which a wish that was left over is found.
ghost use Rattle.std.specs.Prelude.{◌≡◌, ◌≢◌, ◌<◌, ◌^◌, length, None};
ghost use Rattle.run_alone.specs.Lone.{IsLone, LooksFirst};

use heap_rule::Heap;
use run_turns::{DomainRun, turn};

// One turn of a domain that runs and has asked for no pause: it finds a wish that was left over, as that for the end of a
// cycle, and arrives, or goes on.
pub(crate) fn look_first(heap: &Heap, run: &mut DomainRun)
    requires lone { IsLone heap.now run.old }
    requires runs { run.old.left ≡ None }
    requires unasked { run.old.asked ≡ None }
    requires some { run.old.next < length run.old.commands }
    requires few { run.old.token.view.own.arrivals < 2 ^ 60 }
    ensures looks { LooksFirst heap.now run.old run.new }
{
    let _limits = heap.config();
    turn(heap, run);
    run.shows_faithful();
}
