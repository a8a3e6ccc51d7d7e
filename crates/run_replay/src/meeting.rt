//! Domains that meet.
ghost use Rattle.std.specs.Prelude.{◌≡◌, ◌<◌, [], length, slice_set, vec_capacity, None, Some};
ghost use Rattle.run_replay.specs.Gathered.{HasRun};
ghost use Rattle.run_turns.specs.Runs.{RunView};
ghost use Rattle.run_replay.specs.Leveled.{AllHere, Leveled};

use heap_rule::{Domain, Heap};
use run_turns::DomainRun;

// Takes the run at a place.
pub(crate) fn take_run(runs: &mut [Option<DomainRun>], at: usize) -> DomainRun
    requires there { (r : RunView) × HasRun runs.old at r }
    ensures taken { HasRun runs.old at result }
    ensures rest { runs.new ≡ slice_set runs.old at None }
{
    match runs[at].take() {
        Some(run) => run,
        None => unreachable!(),
    }
}

// Puts a run to a place.
pub(crate) fn put_run(runs: &mut [Option<DomainRun>], at: usize, run: DomainRun)
    requires inside { at < length runs.old }
    ensures { runs.new ≡ slice_set runs.old at (Some run) }
{
    runs[at] = Some(run);
}

// Brings all domains together, in room for them: each sees one history then. One that is alone has seen all of it, and runs.
pub(crate) fn meet(heap: &Heap, runs: &mut [Option<DomainRun>], room: &mut Vec<Domain>)
    requires some { 0 < length runs.old }
    requires running { length runs.old ≡ 1 → (r : RunView) → HasRun runs.old 0 r → r.left ≡ None }
    requires here { AllHere heap.now runs.old }
    requires empty { room.old.items ≡ [] }
    requires fits { length runs.old < vec_capacity room.old }
    ensures leveled { Leveled runs.old runs.new }
    ensures room { (room.new.items ≡ []) × (vec_capacity room.new ≡ vec_capacity room.old) }
{
    if runs.len() == 1 {
        return;
    }
    let first = take_run(runs, 0);
    let first = first.meet_all(heap, runs, room);
    put_run(runs, 0, first);
}
