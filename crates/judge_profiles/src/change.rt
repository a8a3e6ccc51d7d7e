//! Changes of what is shown of a domain.
ghost use Rattle.std.specs.Prelude.{◌≡◌, ◌+◌, IfOk, IfSome, IsTrue, Some, slice_get};
ghost use Rattle.judge_profiles.specs.Shown.{changed, changed_all, dropped, refused, swapped};

use crate::act::{Act, Change};
use crate::profile::{Profile, lacks, may_drop, may_swap};
use model_core::command::Command;
use model_core::reply::Reply;
use std::alloc::{AllocError, Global};

// What stands at a place.
fn act_at(acts: &[Act], place: usize) -> Option<Act>
    ensures { result ≡ slice_get acts.now place }
{
    acts.get(place).copied()
}

// Shows two neighbours the other way round, where that is allowed.
fn swap(profile: Profile, acts: &mut Vec<Act>, place: usize) -> bool
    ensures { IsTrue result → swapped profile acts.old.items place (slice_get acts.old.items place) (slice_get acts.old.items (place + 1)) ≡ Some acts.new.items }
{
    let Some(next) = place.checked_add(1) else {
        return false;
    };
    let (Some(first), Some(second)) = (act_at(acts, place), act_at(acts, next)) else {
        return false;
    };
    if !may_swap(profile, first, second) {
        return false;
    }
    acts[place] = second;
    acts[next] = first;
    true
}

// Leaves out what stands at a place, where that is allowed.
fn leave_out(profile: Profile, acts: &mut Vec<Act>, place: usize) -> bool
    ensures { IsTrue result → dropped profile acts.old.items place (slice_get acts.old.items place) (slice_get acts.old.items (place + 1)) ≡ Some acts.new.items }
{
    let Some(next) = place.checked_add(1) else {
        return false;
    };
    let Some(act) = act_at(acts, place) else {
        return false;
    };
    if !may_drop(profile, act, act_at(acts, next)) {
        return false;
    }
    acts.remove(place);
    true
}

// Shows a command that is refused, where that is allowed.
fn refuse(
    profile: Profile,
    acts: &mut Vec<Act>,
    place: usize,
    command: Command,
) -> Result<bool, AllocError>
    ensures { IfOk result (λ yes. IsTrue yes → refused profile acts.old.items place command ≡ Some acts.new.items) }
{
    if !lacks(profile, command) || place > acts.len() {
        return Ok(false);
    }
    acts.insert(
        place,
        Act::Made {
            command,
            reply: Reply::BadType,
        },
    )?;
    Ok(true)
}

// Makes a change, where it is allowed.
fn change(profile: Profile, acts: &mut Vec<Act>, one: Change) -> Result<bool, AllocError>
    ensures { IfOk result (λ yes. IsTrue yes → changed profile acts.old.items one ≡ Some acts.new.items) }
{
    match one {
        Change::Swap { place } => Ok(swap(profile, acts, place as usize)),
        Change::Drop { place } => Ok(leave_out(profile, acts, place as usize)),
        Change::Refuse { place, command } => refuse(profile, acts, place as usize, command),
    }
}

// The change at a place.
fn change_at(changes: &[Change], place: usize) -> Option<Change>
    ensures { result ≡ slice_get changes.now place }
{
    changes.get(place).copied()
}

/// What is shown of a domain behind these changes. `None`: one isn't allowed.
pub(crate) fn shown(
    alloc: Global,
    profile: Profile,
    acts: &[Act],
    changes: &[Change],
) -> Result<Option<Vec<Act>>, AllocError>
    ensures { IfOk result (λ o. IfSome o (λ v. changed_all profile acts.now changes.now ≡ Some v.items)) }
{
    let mut shown = Vec::from_slice(alloc, acts)?;
    for i in 0..changes.len() {
        let Some(one) = change_at(changes, i) else {
            return Ok(None);
        };
        if !change(profile, &mut shown, one)? {
            return Ok(None);
        }
    }
    Ok(Some(shown))
}
