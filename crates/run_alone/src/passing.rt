//! A step in a pause of a heap's only domain.
ghost use Rattle.std.specs.Prelude.{◌≡◌, ◌≢◌, ◌<◌, ◌^◌, [], vec_capacity, None};
ghost use Rattle.heap_rule.specs.Token.{IsIn};
ghost use Rattle.run_turns.specs.Runs.{GoesOn, IsRun};
ghost use Rattle.run_alone.specs.Lone.{PassesAlone};

use gc_pause::phases::Decider;
use heap_rule::{Domain, Heap};
use run_turns::DomainRun;

// Takes the heap's only domain, which has arrived, one step further. It doesn't wait.
pub(crate) fn pass_alone(
    heap: &Heap,
    run: DomainRun,
    room: &mut Vec<Domain>,
    decider: Decider,
) -> DomainRun
    requires here { IsIn run.token heap.now }
    requires is { IsRun run }
    requires alone { heap.now.config.domains ≡ 1 }
    requires arrived { run.left ≢ None }
    requires few { run.token.view.own.arrivals < 2 ^ 60 }
    requires empty { room.old.items ≡ [] }
    requires fits { 1 < vec_capacity room.old }
    ensures here { IsIn result.token heap.now }
    ensures passed { PassesAlone heap.now decider run result }
    ensures room { (room.new.items ≡ []) × (vec_capacity room.new ≡ vec_capacity room.old) }
{
    let mut others = [None];
    run.pass_among(heap, &mut others, room, decider)
}
