//! All domains of a history, and all lines of an output.
ghost use Rattle.std.specs.Prelude.{◌≡◌, ◌<◌, ◌^◌, IfOk, IsTrue, length};
ghost use Rattle.model_core.specs.Domains.{IsWithinLimits};
ghost use Rattle.judge_plain.specs.History.Explains.{Explains, IsYesTo};

use crate::history::domain::read_domain;
use crate::history::lines::behind_section;
use crate::history::play::play;
use model_core::entry::Entry;
use model_core::state::Sizes;
use std::alloc::{AllocError, Global};
use text_script::Script;

/// Whether a history of a heap of these sizes is legal, has the commands of a script, each domain's in order, up to the
/// end of each domain, and prints these bytes.
pub fn gives(
    alloc: Global,
    sizes: &Sizes,
    script: &Script,
    history: &[Entry],
    bytes: &[u8],
) -> Result<bool, AllocError>
    requires limits { IsWithinLimits sizes.now }
    requires sections { length script.now.sections ≡ sizes.now.domains }
    // What it says yes to is so.
    ensures sound { IfOk result (λ yes. IsTrue yes → Explains sizes.now script.now.sections bytes.now history.now) }
    // It says yes to what is so, of a history with fewer than 2^32 entries.
    ensures exact { length history.now < 2 ^ 32 → IfOk result
        (IsYesTo sizes.now script.now.sections bytes.now history.now) }
{
    let Some(told) = play(alloc, sizes, history)? else {
        return Ok(false);
    };
    let mut rest = bytes;
    for d in 0..sizes.domains {
        let section = script.section(d as usize);
        let Some(replies) = read_domain(alloc, sizes, d, section, history, &told)? else {
            return Ok(false);
        };
        let Some(behind) = behind_section(rest, d, &replies) else {
            return Ok(false);
        };
        rest = behind;
    }
    Ok(rest.is_empty())
}
