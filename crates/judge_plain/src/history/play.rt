//! Plays a history on the slow heap.
ghost use Rattle.std.specs.Prelude.{◌≡◌, ◌<◌, ◌^◌, IfOk, IfSome, IfNone, length};
ghost use Rattle.model_core.specs.Domains.{IsWithinLimits};
ghost use Rattle.model_core.specs.History.{Legal};
ghost use Rattle.model_core.specs.Entries.{Allowed, IsInRange};
ghost use Rattle.judge_plain.specs.History.Steps.{Leads, answers};

use crate::SlowHeap;
use model_core::entry::Entry;
use model_core::reply::{Applied, ApplyFault};
use model_core::state::Sizes;
use std::alloc::{AllocError, Global};

/// Follows an entry, and answers its reply. `None`: it isn't allowed.
pub fn follow(heap: &mut SlowHeap, entry: &Entry) -> Result<Option<Applied>, AllocError>
    ensures led { IfOk result (λ o. IfSome o (Leads heap.old heap.new entry.now)) }
    ensures refused { IfOk result (λ o. IfNone o (Allowed heap.old entry.now → IsInRange heap.old entry.now → ⊥)) }
{
    if !heap.is_in_range(entry) {
        return Ok(None);
    }
    match heap.apply(entry) {
        Ok(applied) => Ok(Some(applied)),
        Err(ApplyFault::NotLegal) => Ok(None),
        Err(ApplyFault::Memory) => Err(AllocError),
    }
}

/// Plays a history on a heap of these sizes, and answers what each entry answers. `None`: the history isn't legal, or has 2^32 entries
/// or more.
pub(crate) fn play(
    alloc: Global,
    sizes: &Sizes,
    history: &[Entry],
) -> Result<Option<Vec<Applied>>, AllocError>
    requires { IsWithinLimits sizes.now }
    ensures legal { IfOk result (λ o. IfSome o (λ v. Legal sizes.now history.now)) }
    ensures answers { IfOk result (λ o. IfSome o (λ v. v.items ≡ answers sizes.now history.now)) }
    ensures illegal { IfOk result (λ o. IfNone o (length history.now < 2 ^ 32 → Legal sizes.now history.now → ⊥)) }
{
    let mut heap = SlowHeap::of_sizes(alloc, sizes)?;
    let mut told = Vec::new(alloc);
    for entry in history {
        let Some(applied) = follow(&mut heap, entry)? else {
            return Ok(None);
        };
        told.push(applied)?;
    }
    Ok(Some(told))
}
