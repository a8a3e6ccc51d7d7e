//! Whether a history explains an output under a profile.
ghost use Rattle.std.specs.Prelude.{◌≡◌, ◌<◌, ◌++◌, [], length, map, slice_index_or, IfOk, IfSome, IsTrue};
ghost use Rattle.model_core.specs.Domains.{IsWithinLimits};
ghost use Rattle.judge_plain.specs.History.Explains.{section_lines};
ghost use Rattle.judge_profiles.specs.Explains.{ExplainsUnder, Reads, ReadsAll};
ghost use Rattle.judge_profiles.specs.Shown.{replies_of, shown_of};

use crate::act::{Act, Change};
use crate::change::shown;
use crate::profile::Profile;
use crate::replies::{makes, replies_of};
use judge_plain::history::{behind_section, gives};
use model_core::command::Command;
use model_core::entry::Entry;
use model_core::state::Sizes;
use std::alloc::{AllocError, Global};
use text_script::Script;

/// How an output is read: a script and an output that a legal history explains, what each domain does in it, and what is shown otherwise.
#[derive(Drop)]
pub struct Reading {
    pub script: Script,
    pub output: Vec<u8>,
    pub history: Vec<Entry>,
    pub acts: Vec<Vec<Act>>,
    pub changes: Vec<Vec<Change>>,
}

// What domain `d` does. Nothing, where that isn't said.
fn acts_at(acts: &[Vec<Act>], d: usize) -> &[Act]
    ensures { result.now ≡ slice_index_or (map (λ v. v.items) acts.now) d [] }
{
    match acts.get(d) {
        Some(own) => own.as_slice(),
        None => &[],
    }
}

// What is shown otherwise of domain `d`.
fn changes_at(changes: &[Vec<Change>], d: usize) -> &[Change]
    ensures { result.now ≡ slice_index_or (map (λ v. v.items) changes.now) d [] }
{
    match changes.get(d) {
        Some(own) => own.as_slice(),
        None => &[],
    }
}

// What is shown of a domain, where that makes one section of the other. `None`: it doesn't.
fn read_shown(
    alloc: Global,
    profile: Profile,
    made: &[Command],
    section: &[Command],
    acts: &[Act],
    changes: &[Change],
) -> Result<Option<Vec<Act>>, AllocError>
    ensures reads { IfOk result (λ o. IfSome o (λ v. Reads profile made.now section.now acts.now changes.now)) }
    ensures shown { IfOk result (λ o. IfSome o (λ v. v.items ≡ shown_of profile acts.now changes.now)) }
{
    if !makes(alloc, acts, made)? {
        return Ok(None);
    }
    let Some(shown) = shown(alloc, profile, acts, changes)? else {
        return Ok(None);
    };
    if makes(alloc, &shown, section)? {
        Ok(Some(shown))
    } else {
        Ok(None)
    }
}

// What stands behind the lines of what a domain does.
fn behind_acts<'a>(
    alloc: Global,
    bytes: &'a [u8],
    d: u32,
    acts: &[Act],
) -> Result<Option<&'a [u8]>, AllocError>
    ensures { IfOk result (λ o. IfSome o (λ rest. bytes.now ≡ section_lines d (replies_of acts.now) ++ rest.now)) }
{
    let replies = replies_of(alloc, acts)?;
    Ok(behind_section(bytes, d, &replies))
}

// Whether what each domain does is that of the reading, and is shown as the script and the output have it.
fn reads(
    alloc: Global,
    profile: Profile,
    sizes: &Sizes,
    script: &Script,
    output: &[u8],
    reading: &Reading,
) -> Result<bool, AllocError>
    requires read { length reading.now.script.sections ≡ sizes.now.domains }
    requires sections { length script.now.sections ≡ sizes.now.domains }
    ensures { IfOk result (λ yes. IsTrue yes → ReadsAll profile sizes.now.domains reading.now.script.sections script.now.sections reading.now.output.items output.now
        (map (λ v. v.items) reading.now.acts.items) (map (λ v. v.items) reading.now.changes.items)) }
{
    let mut own_rest = reading.output.as_slice();
    let mut rest = output;
    for d in 0..sizes.domains {
        let place = d as usize;
        let acts = acts_at(&reading.acts, place);
        let changes = changes_at(&reading.changes, place);
        let made = reading.script.section(place);
        let Some(shown) = read_shown(alloc, profile, made, script.section(place), acts, changes)?
        else {
            return Ok(false);
        };
        let Some(own_behind) = behind_acts(alloc, own_rest, d, acts)? else {
            return Ok(false);
        };
        let Some(behind) = behind_acts(alloc, rest, d, &shown)? else {
            return Ok(false);
        };
        own_rest = own_behind;
        rest = behind;
    }
    Ok(own_rest.is_empty() && rest.is_empty())
}

/// Whether a reading explains an output of a script under a profile: its history is legal, makes the commands of its script and prints
/// its output, and the profile allows that it is shown as the script and the output have it. `false` may have other reasons.
pub fn explains_under(
    alloc: Global,
    profile: Profile,
    sizes: &Sizes,
    script: &Script,
    output: &[u8],
    reading: &Reading,
) -> Result<bool, AllocError>
    requires limits { IsWithinLimits sizes.now }
    requires sections { length script.now.sections ≡ sizes.now.domains }
    ensures { IfOk result (λ yes. IsTrue yes → ExplainsUnder profile sizes.now script.now.sections output.now) }
{
    if reading.script.sections() != sizes.domains as usize {
        return Ok(false);
    }
    if !gives(
        alloc,
        sizes,
        &reading.script,
        &reading.history,
        &reading.output,
    )? {
        return Ok(false);
    }
    reads(alloc, profile, sizes, script, output, reading)
}
