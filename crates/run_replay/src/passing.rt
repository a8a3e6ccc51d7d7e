//! A step in a pause.
ghost use Rattle.std.specs.Prelude.{◌≡◌, ◌≢◌, ◌<◌, ◌≤◌, ◌^◌, ℕ, [], false, length, vec_capacity, None, Some, true};
ghost use Rattle.run_turns.specs.Runs.{RunView};
ghost use Rattle.run_replay.specs.Gathered.{GoneAt, HasRun};
ghost use Rattle.run_replay.specs.Leveled.{AllHere};
ghost use Rattle.run_replay.specs.Moves.{IsSooner, MetThen, PassesAt};

use crate::meeting::{put_run, take_run};
use gc_pause::phases::Decider;
use heap_rule::{Domain, Heap};
use run_turns::DomainRun;

// Whether the domain of a run has arrived.
fn has_gone(run: &Option<DomainRun>) -> bool
    ensures yes { result ≡ true → (r : RunView) → run.now ≡ Some r → r.left ≢ None }
    ensures no { result ≡ false → (r : RunView) → run.now ≡ Some r → r.left ≡ None }
{
    match run {
        Some(run) => !run.running(),
        None => false,
    }
}

// The first domain that has arrived, where one has.
fn first_gone(runs: &[Option<DomainRun>]) -> usize
    requires some { (d : ℕ) × (d < length runs.now) × GoneAt runs.now d }
    requires filled { (d : ℕ) → d < length runs.now → (r : RunView) × HasRun runs.now d r }
    ensures inside { result < length runs.now }
    ensures gone { GoneAt runs.now result }
{
    'domains: for at in 0..runs.len() {
        if has_gone(&runs[at]) {
            return at;
        }
    }
    unreachable!()
}

// How often the domain of a run has arrived.
fn arrivals_of(run: &Option<DomainRun>) -> u64
    ensures { (r : RunView) → run.now ≡ Some r → result ≡ r.token.view.own.arrivals }
{
    match run {
        Some(run) => run.domain().arrivals(),
        None => 0,
    }
}

// Of two domains, the first of which has arrived, the other one if it has too, and less often.
fn sooner(runs: &[Option<DomainRun>], at: usize, other: usize) -> usize
    requires inside { (at < length runs.now) × (other < length runs.now) }
    requires gone { GoneAt runs.now at }
    ensures inside { result < length runs.now }
    ensures gone { GoneAt runs.now result }
    ensures first { IsSooner runs.now result at }
    ensures second { GoneAt runs.now other → IsSooner runs.now result other }
{
    if arrivals_of(&runs[other]) >= arrivals_of(&runs[at]) {
        return at;
    }
    if !has_gone(&runs[other]) {
        return at;
    }
    other
}

// Of the domains that have arrived, where one has, one that has arrived least often: it needn't wait for the others.
pub(crate) fn gone(runs: &[Option<DomainRun>]) -> usize
    requires some { (d : ℕ) × (d < length runs.now) × GoneAt runs.now d }
    requires filled { (d : ℕ) → d < length runs.now → (r : RunView) × HasRun runs.now d r }
    ensures inside { result < length runs.now }
    ensures gone { GoneAt runs.now result }
    ensures least { (d : ℕ) → d < length runs.now → GoneAt runs.now d → IsSooner runs.now result d }
{
    let mut at = first_gone(runs);
    'others: for other in 0..runs.len() {
        at = sooner(runs, at, other);
    }
    at
}

// One step in a pause of the domain at this place, which has arrived, and least often, as all meet. No command of it is to
// be answered `full`.
pub(crate) fn pass_at(
    heap: &Heap,
    runs: &mut [Option<DomainRun>],
    room: &mut Vec<Domain>,
    at: usize,
    complete: bool,
)
    requires inside { at < length runs.old }
    requires count { length runs.old ≡ heap.now.config.domains }
    requires here { AllHere heap.now runs.old }
    requires gone { GoneAt runs.old at }
    requires few { (r : RunView) → HasRun runs.old at r → r.token.view.own.arrivals < 2 ^ 60 }
    requires least { (d : ℕ) → IsSooner runs.old at d }
    requires empty { room.old.items ≡ [] }
    requires fits { length runs.old < vec_capacity room.old }
    ensures passes { MetThen runs.old (λ pause mid. PassesAt heap.now complete pause mid runs.new at) }
    ensures room { (room.new.items ≡ []) × (vec_capacity room.new ≡ vec_capacity room.old) }
{
    let run = take_run(runs, at);
    let mut run = run.pass_among(heap, runs, room, Decider::Caller { complete });
    run.shows_faithful();
    run.forget_collected();
    run.shows_faithful();
    put_run(runs, at, run);
}
