//! The tries of the next command of a heap's only domain.
ghost use Rattle.std.specs.Prelude.{◌≡◌, ◌≢◌, ◌<◌, length, true, false, None};
ghost use Rattle.run_alone.specs.Lone.{IsLone, TriesOn, Wants};

use heap_rule::Heap;
use run_turns::{DomainRun, go_on};

// Whether a run has asked for a pause for its next command, and none has come since.
pub(crate) fn wants(run: &DomainRun) -> bool
    ensures yes { result ≡ true → Wants run.now }
    ensures no { result ≡ false → Wants run.now → ⊥ }
{
    run.has_asked() && !run.has_paused()
}

// Runs the finalisers that wait and tries the next command, until it is made or asks for a pause. Each finaliser runs once.
pub(crate) fn try_on(heap: &Heap, run: &mut DomainRun)
    requires lone { IsLone heap.now run.old }
    requires runs { run.old.left ≡ None }
    requires some { run.old.next < length run.old.commands }
    ensures tries { TriesOn heap.now run.old run.new }
{
    let _limits = heap.config();
    let next = run.next();
    'tries: loop {
        let _remembered = run.domain().remembered_len();
        go_on(heap, run);
        run.shows_faithful();
        if run.next() != next {
            return;
        }
        if wants(run) {
            return;
        }
    }
}
