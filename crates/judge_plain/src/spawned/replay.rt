//! All domains of a history, and all lines of an output.
ghost use Rattle.std.specs.Prelude.{◌≡◌, ◌<◌, ◌++◌, IfOk, IfSome, IsTrue, length, slice_index_or, []};
ghost use Rattle.model_core.specs.Domains.{IsWithinLimits};
ghost use Rattle.model_core.specs.Output.{printed};
ghost use Rattle.model_traces.specs.Spawns.Expansion.{is_spawned};
ghost use Rattle.model_traces.specs.Spawns.Hidden.{prelude};
ghost use Rattle.model_traces.specs.Spawns.Printed.{printed_replies};
ghost use Rattle.judge_plain.specs.Spawned.Explains.{ExplainsSpawning, Makes, MakesSection};

use crate::SlowHeap;
use crate::history::behind_section;
use crate::spawned::play::{Told, play};
use crate::spawned::prelude::behind_prelude;
use crate::spawned::section::is_section;
use model_core::entry::Entry;
use model_core::reply::Reply;
use model_core::state::Sizes;
use std::alloc::{AllocError, Global};
use text_script::Script;

// Whether a domain has made its section, and has ended.
fn makes_section(told: &Told, d: u32, script: &Script) -> bool
    requires inside { (d < 8) × (d < length script.now.sections) }
    ensures { IsTrue result → MakesSection script.now.sections d told.now.steps.items told.now.ended }
{
    let spawned = script.is_spawned(d);
    let commands = script.section(d as usize);
    told.ended && is_section(&told.steps, d, spawned, commands)
}

// The replies of a domain that are printed. `None`: the history isn't legal, or the domain doesn't make its section, or doesn't
// end.
fn read_domain(
    alloc: Global,
    sizes: &Sizes,
    d: u32,
    script: &Script,
    front: &[Entry],
    behind: &[Entry],
) -> Result<Option<Vec<Reply>>, AllocError>
    requires limits { IsWithinLimits sizes.now }
    requires inside { d < sizes.now.domains }
    requires sections { length script.now.sections ≡ sizes.now.domains }
    requires begins { front.now ≡ prelude sizes.now.domains }
    ensures makes { IfOk result (λ o. IfSome o (λ v. Makes sizes.now script.now.sections (front.now ++ behind.now) behind.now d)) }
    ensures replies { IfOk result (λ o. IfSome o (λ v. v.items ≡ printed_replies sizes.now (front.now ++ behind.now) d)) }
{
    let mut heap = SlowHeap::of_sizes(alloc, sizes)?;
    let mut replies = Vec::new(alloc);
    let Some(_) = play(alloc, &mut heap, d, front, &mut replies)? else {
        return Ok(None);
    };
    let Some(told) = play(alloc, &mut heap, d, behind, &mut replies)? else {
        return Ok(None);
    };
    if makes_section(&told, d, script) {
        Ok(Some(replies))
    } else {
        Ok(None)
    }
}

/// Whether a history of a heap of these sizes is legal, begins with the entries by which the hidden block is made, has the steps of
/// a script whose sections spawn one another, each domain's up to its end, and prints these bytes. `false` may have other reasons.
pub fn gives_spawning(
    alloc: Global,
    sizes: &Sizes,
    script: &Script,
    history: &[Entry],
    bytes: &[u8],
) -> Result<bool, AllocError>
    requires limits { IsWithinLimits sizes.now }
    requires sections { length script.now.sections ≡ sizes.now.domains }
    ensures { IfOk result (λ yes. IsTrue yes → ExplainsSpawning sizes.now script.now.sections bytes.now history.now) }
{
    let Some(behind) = behind_prelude(history, sizes.domains) else {
        return Ok(false);
    };
    let front = &history[..history.len() - behind.len()];
    let mut rest = bytes;
    for d in 0..sizes.domains {
        let Some(replies) = read_domain(alloc, sizes, d, script, front, behind)? else {
            return Ok(false);
        };
        let Some(behind_lines) = behind_section(rest, d, &replies) else {
            return Ok(false);
        };
        rest = behind_lines;
    }
    Ok(rest.is_empty())
}
