//! Ends a heap whose runs are over.
ghost use Rattle.std.specs.Prelude.{◌≡◌, ◌<◌, ◌≤◌, [], map, length, vec_capacity};
ghost use Rattle.std.specs.List.{AllByRecursion};
ghost use Rattle.run_turns.specs.Runs.{IsRun};
ghost use Rattle.camlheap_run.specs.Running.{IsHere, IsOver, IsPastOf, token_of};

use heap_rule::{Domain, Ended, Heap};
use run_turns::DomainRun;

// The domains of runs that are over, in order, in room that was taken before.
fn domains_of(runs: Vec<DomainRun>, room: Vec<Domain>) -> Vec<Domain>
    requires over { AllByRecursion IsOver runs.items }
    requires empty { room.items ≡ [] }
    requires room { length runs.items ≤ vec_capacity room }
    ensures domains { result.items ≡ map token_of runs.items }
    ensures faithful { AllByRecursion IsRun runs.items }
{
    let mut domains = room;
    'runs: for run in runs {
        run.shows_faithful();
        domains.push_reserved(run.into_domain());
    }
    domains
}

// Ends the heap of runs that are over. No memory is taken.
pub(crate) fn end(heap: Heap, runs: Vec<DomainRun>, room: Vec<Domain>) -> Ended
    requires here { AllByRecursion (IsHere heap) runs.items }
    requires over { AllByRecursion IsOver runs.items }
    requires some { 0 < length runs.items }
    requires empty { room.items ≡ [] }
    requires room { length runs.items ≤ vec_capacity room }
    ensures { IsPastOf heap runs.items result }
{
    let domains = domains_of(runs, room);
    heap.stop(domains)
}
