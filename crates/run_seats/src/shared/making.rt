//! The start of a heap whose domains have a share of it each.
ghost use Rattle.std.specs.Prelude.{◌≡◌, ◌↔◌, ℕ, Some, Err, IfOk};
ghost use Rattle.std.specs.List.{AllByRecursion};
ghost use Rattle.heap_rule.specs.Limits.{first_outside};
ghost use Rattle.heap_rule.specs.Token.{IsIn};
ghost use Rattle.run_turns.specs.Runs.{RunView};
ghost use Rattle.run_seats.specs.Shared.Sharing.{ShareOne, shared_by};

use crate::shared::shared::SharedRun;
use heap_rule::{Config, Heap, StartFault};
use run_turns::DomainRun;
use run_turns::singly::start;
use std::alloc::{AllocError, Global};
use std::sync::Arc;

// A share of the heap for each of these runs.
fn share_all(
    alloc: Global,
    heap: &Arc<Heap>,
    runs: Vec<DomainRun>,
) -> Result<Vec<SharedRun>, AllocError>
    requires here { AllByRecursion (λ (r : RunView). IsIn r.token heap.now.value) runs.items }
    ensures { IfOk result (λ v. v.items ≡ shared_by heap.now.value runs.items) }
{
    let mut shared = Vec::new(alloc);
    'runs: for run in runs {
        let share = Arc::try_clone(heap)?;
        shared.push(SharedRun::of(share, run))?;
    }
    Ok(shared)
}

/// A heap of this size, and its domains in order. Register 0 of each holds the shared block, and the others nothing. The
/// heap goes with the last of them.
///
/// `Config(k)` names the first of the heap's numbers outside its limit.
pub fn make_all(alloc: Global, config: Config) -> Result<Vec<SharedRun>, StartFault>
    ensures outside { (k : ℕ) → (result ≡ Err (StartFault.Config k)) ↔ (first_outside config ≡ Some k) }
    ensures shared { IfOk result (λ v. ShareOne config v.items) }
{
    let (heap, runs) = start(alloc, config)?;
    let heap = Arc::new(alloc, heap)?;
    Ok(share_all(alloc, &heap, runs)?)
}
