//! A command that was handed in to a heap's only domain.
ghost use Rattle.std.specs.Prelude.{◌≡◌, ◌<◌, ◌≤◌, ◌+◌, ◌*◌, ◌^◌, [], length, vec_capacity, None, Some};
ghost use Rattle.heap_rule.specs.Limits.{sizes_in};
ghost use Rattle.run_turns.specs.Runs.{AddsRan};
ghost use Rattle.run_turns.specs.Singly.Driving.{AnswersAwaited};
ghost use Rattle.run_alone.specs.Lone.{IsLone};
ghost use Rattle.run_alone.specs.Paces.{IsPaced, last_of, most_in_pause};

use crate::pausing::come_back;
use crate::serving::make;
use heap_rule::{Domain, Heap};
use model_core::reply::Reply;
use run_turns::DomainRun;

/// Makes the command that was handed in, and answers its reply. The domain may still arrive as often as three pauses take at
/// most.
pub fn finish(heap: &Heap, run: DomainRun, room: &mut Vec<Domain>) -> (DomainRun, Reply)
    requires lone { IsLone heap.now run }
    requires unasked { run.asked ≡ None }
    requires some { run.next < length run.commands }
    requires few { last_of heap.now.config run + 3 * most_in_pause < 2 ^ 60 }
    requires empty { room.old.items ≡ [] }
    requires fits { 1 < vec_capacity room.old }
    ensures lone { IsLone heap.now result.0 }
    ensures answered { AnswersAwaited heap.now run result.0 (Some result.1) }
    ensures ran { AddsRan (sizes_in heap.now.config) run result.0 }
    ensures spends { last_of heap.now.config result.0 ≤ last_of heap.now.config run + 3 * most_in_pause }
    ensures paced { IsPaced heap.now.config result.0 }
    ensures room { (room.new.items ≡ []) × (vec_capacity room.new ≡ vec_capacity room.old) }
{
    let run = come_back(heap, run, room);
    let run = make(heap, run, room);
    match run.answer() {
        Some(reply) => (run, reply),
        None => unreachable!(),
    }
}
