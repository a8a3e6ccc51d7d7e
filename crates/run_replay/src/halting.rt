//! The begin of a pause.
ghost use Rattle.std.specs.Prelude.{◌≡◌, ◌<◌, ◌^◌, ℕ, [], length, vec_capacity, None};
ghost use Rattle.run_turns.specs.Runs.{RunView};
ghost use Rattle.run_replay.specs.Gathered.{HasRun};
ghost use Rattle.run_replay.specs.Leveled.{AllHere};
ghost use Rattle.run_replay.specs.Moves.{HaltsAt, HaltsUpto, MetThen};

use crate::meeting::meet;
use heap_rule::{Domain, Heap};
use run_turns::DomainRun;

// The domain at this place, which runs, arrives.
fn halt_at(heap: &Heap, runs: &mut [Option<DomainRun>], at: usize)
    requires inside { at < length runs.old }
    requires here { AllHere heap.now runs.old }
    requires running { (r : RunView) → HasRun runs.old at r → r.left ≡ None }
    requires few { (r : RunView) → HasRun runs.old at r → r.token.view.own.arrivals < 2 ^ 60 }
    ensures halts { HaltsAt heap.now runs.old runs.new at }
{
    let Some(run) = &mut runs[at] else {
        unreachable!()
    };
    run.halt(heap);
    run.shows_faithful();
}

// All domains, which run, arrive.
fn halt_each(heap: &Heap, runs: &mut [Option<DomainRun>])
    requires here { AllHere heap.now runs.old }
    requires running { (d : ℕ) (r : RunView) → HasRun runs.old d r → r.left ≡ None }
    requires few { (d : ℕ) (r : RunView) → HasRun runs.old d r → r.token.view.own.arrivals < 2 ^ 60 }
    ensures halts { HaltsUpto heap.now runs.old runs.new (length runs.old) }
{
    'all: for at in 0..runs.len() {
        halt_at(heap, runs, at);
    }
}

// The same once all have met.
pub(crate) fn halt_all(heap: &Heap, runs: &mut [Option<DomainRun>], room: &mut Vec<Domain>)
    requires some { 0 < length runs.old }
    requires here { AllHere heap.now runs.old }
    requires running { (d : ℕ) (r : RunView) → HasRun runs.old d r → r.left ≡ None }
    requires few { (r : RunView) → HasRun runs.old 0 r → r.token.view.own.arrivals < 2 ^ 60 }
    requires empty { room.old.items ≡ [] }
    requires fits { length runs.old < vec_capacity room.old }
    ensures halts { MetThen runs.old (λ pause mid. HaltsUpto heap.now mid runs.new (length mid)) }
    ensures room { (room.new.items ≡ []) × (vec_capacity room.new ≡ vec_capacity room.old) }
{
    meet(heap, runs, room);
    halt_each(heap, runs);
}
