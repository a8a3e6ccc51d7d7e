//! A step of a domain that runs.
ghost use Rattle.std.specs.Prelude.{◌≡◌, ◌≢◌, ◌<◌, [], true, false, length, vec_capacity, None};
ghost use Rattle.run_turns.specs.Runs.{RunView};
ghost use Rattle.heap_rule.specs.Token.{IsIn};
ghost use Rattle.run_replay.specs.Asking.{AskFew};
ghost use Rattle.run_replay.specs.Gathered.{HasRun};
ghost use Rattle.text_script.specs.declared.schedule.drive.together.Stepped.TheVariants.{Needs};
ghost use Rattle.run_replay.specs.Leveled.{AllHere};
ghost use Rattle.run_replay.specs.Moves.{CameTo, MetThen, StepsAt};

use crate::meeting::meet;
use heap_rule::{Domain, Heap};
use run_turns::{DomainRun, go_on};
use text_script::schedule::drive::Stepped;

// What a step came to, after which the domain runs: the place of the next command and the number of replies before it
// are known.
fn came_to(heap: &Heap, run: &mut DomainRun, next: usize, count: usize) -> Stepped
    requires here { IsIn run.old.token heap.now }
    requires running { run.old.left ≡ None }
    ensures same { run.new ≡ run.old }
    ensures came { CameTo heap.now.config run.old next count result }
{
    if run.next() != next || run.has_ended() {
        return Stepped::Made;
    }
    if run.replies().len() != count {
        return Stepped::Ran;
    }
    run.look_at_queue(heap);
    Stepped::Needs {
        complete: run.is_at_full_major(),
    }
}

// Whether a command for which a pause has come asks for another one without a complete collection.
fn asks_again(paused: bool, stepped: Stepped) -> bool
    ensures yes { result ≡ true → (paused ≡ true) × (stepped ≡ Needs false) }
    ensures no { result ≡ false → stepped ≡ Needs false → paused ≡ false }
{
    match stepped {
        Stepped::Needs { complete: false } => paused,
        _ => false,
    }
}

// One step of the domain at this place, which runs and hasn't ended. Once a pause for which it asked has come it asks for no
// other: its minor area is empty then, it remembers no field, and no allocation is refused, since more blocks would have been
// made than there are allocations, as the domains would find where they met.
fn step_alone(
    heap: &Heap,
    runs: &mut [Option<DomainRun>],
    room: &mut Vec<Domain>,
    at: usize,
) -> Stepped
    requires inside { at < length runs.old }
    requires here { AllHere heap.now runs.old }
    requires running { (r : RunView) → HasRun runs.old at r → r.left ≡ None }
    requires goes_on { (r : RunView) → HasRun runs.old at r → r.ended ≡ false }
    requires few { AskFew heap.now runs.old }
    requires empty { room.old.items ≡ [] }
    requires fits { length runs.old < vec_capacity room.old }
    ensures steps { StepsAt heap.now runs.old runs.new at result }
    ensures room { (room.new.items ≡ []) × (vec_capacity room.new ≡ vec_capacity room.old) }
{
    let _limits = heap.config();
    let Some(run) = &mut runs[at] else {
        unreachable!()
    };
    let next = run.next();
    let count = run.replies().len();
    let paused = run.has_paused();
    let _remembered = run.domain().remembered_len();
    go_on(heap, run);
    run.shows_faithful();
    let stepped = came_to(heap, run, next, count);
    if asks_again(paused, stepped) {
        meet(heap, runs, room);
        unreachable!()
    }
    stepped
}

// The same once all have met.
pub(crate) fn step_at(
    heap: &Heap,
    runs: &mut [Option<DomainRun>],
    room: &mut Vec<Domain>,
    at: usize,
) -> Stepped
    requires inside { at < length runs.old }
    requires here { AllHere heap.now runs.old }
    requires running { (r : RunView) → HasRun runs.old at r → r.left ≡ None }
    requires goes_on { (r : RunView) → HasRun runs.old at r → r.ended ≡ false }
    requires few { AskFew heap.now runs.old }
    requires empty { room.old.items ≡ [] }
    requires fits { length runs.old < vec_capacity room.old }
    ensures steps { MetThen runs.old (λ pause mid. StepsAt heap.now mid runs.new at result) }
    ensures room { (room.new.items ≡ []) × (vec_capacity room.new ≡ vec_capacity room.old) }
{
    meet(heap, runs, room);
    step_alone(heap, runs, room, at)
}
