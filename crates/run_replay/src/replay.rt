//! Runs that a schedule drives from their start to their end.
ghost use Rattle.std.specs.Prelude.{◌<◌, ◌≡◌, ◌≤◌, ℕ, List, [], IfOk, length, map, slice_get, true, vec_capacity, Some};
ghost use Rattle.std.specs.List.{list_all};
ghost use Rattle.model_core.specs.declared.entry.Entry.{Entry};
ghost use Rattle.run_turns.specs.Runs.{RunView};
ghost use Rattle.text_script.specs.Schedule.Drive.Following.{IsCalm, is_for};
ghost use Rattle.text_script.specs.Schedule.Drive.Spending.{most_in_replay};
ghost use Rattle.run_replay.specs.Gathered.{MayShare, seen_in};
ghost use Rattle.run_replay.specs.Pace.{spare_of};
ghost use Rattle.run_replay.specs.Replayed.{IsUntouched, MayReplay, Replayed};

use crate::Gathered;
use heap_rule::Heap;
use model_traces::schedules::Item;
use run_turns::DomainRun;
use std::alloc::{AllocError, Global};
use text_script::schedule::drive::{TogetherRuns, replay};

// Gathered runs, driven by a schedule, and then taken apart.
fn drive(gathered: Gathered, room: Vec<DomainRun>, items: &[Item]) -> (Heap, Vec<DomainRun>)
    requires calm { IsCalm (seen_in gathered) }
    requires fresh { (h : List Entry) → MayShare gathered h → h ≡ [] }
    requires empty { room.items ≡ [] }
    requires room { length gathered.runs ≤ vec_capacity room }
    requires inside { list_all (is_for (length gathered.runs)) items.now ≡ true }
    requires arrivals { most_in_replay (seen_in gathered) items.now < spare_of gathered }
    ensures { (runs : List RunView) → gathered.runs ≡ map Some runs → ((d : ℕ) (r : RunView) → slice_get runs d ≡ Some r → IsUntouched r) → Replayed gathered.heap.config runs items.now result.0 result.1.items }
{
    let mut gathered = gathered;
    replay(&mut gathered, items);
    gathered.shows_whole();
    gathered.apart(room)
}

/// Drives the runs of all domains of a heap on this thread, by a schedule and then in rounds until all have ended. The
/// runs have done nothing yet, and stand in the order of their domains, as do those that come back; each item is for one of
/// them, and there are 200,000 items at most. All memory is taken before the first command. Fails for want of memory alone, and
/// then the heap and its runs are given up.
///
/// The heap has at least twice as many pools as the commands may use, and two more than twice the reserve of promotion. So no
/// allocation is refused.
///
/// Each domain has then made its commands, each once and in order, and its end, and its replies are those of the scheduled
/// history. That is a function of the numbers of the heap, the commands and the items.
pub fn replay_runs(
    alloc: Global,
    heap: Heap,
    runs: Vec<DomainRun>,
    items: &[Item],
) -> Result<(Heap, Vec<DomainRun>), AllocError>
    requires may { MayReplay heap runs.items }
    requires inside { list_all (is_for (length runs.items)) items.now ≡ true }
    requires few { length items.now ≤ 200000 }
    ensures { IfOk result (λ r. Replayed heap.config runs.items items.now r.0 r.1.items) }
{
    let room = Vec::with_capacity(alloc, runs.len())?;
    let gathered = Gathered::gather(alloc, heap, runs)?;
    gathered.shows_whole();
    gathered.shows_shared();
    Ok(drive(gathered, room, items))
}
