//! What a scheduled history prints.
ghost use Rattle.std.specs.Prelude.{◌≡◌, ◌++◌, IfOk, OnOk, length};
ghost use Rattle.model_core.specs.Domains.{IsWithinLimits};
ghost use Rattle.model_core.specs.History.{Legal, replies};
ghost use Rattle.model_core.specs.Entries.{Allowed, next, reply};
ghost use Rattle.model_core.specs.Output.{line, output, printed, reply_text};
ghost use Rattle.text_script.specs.Spelling.{heading_text};
ghost use Rattle.model_traces.specs.Schedules.Scheduled.{scheduled};
ghost use Rattle.model_traces.specs.Scheduled.Runs.{IsPlainScript};

use crate::SlowHeap;
use crate::own::{add_reply, is_own};
use crate::scheduled::turns::scheduled_history;
use model_core::entry::Entry;
use model_core::reply::{Applied, ApplyFault, Reply};
use model_core::state::Sizes;
use model_traces::schedules::Item;
use std::alloc::{AllocError, Global};
use text_script::{Line, Script, print_heading, print_reply};

// Follows an entry that is allowed.
fn follow(heap: &mut SlowHeap, entry: &Entry) -> Result<Applied, AllocError>
    requires { Allowed heap.old entry.now }
    ensures reply { IfOk result (λ a. a ≡ reply heap.old entry.now) }
    ensures state { OnOk result (heap.new ≡ next heap.old entry.now) }
{
    // A domain with more blocks than 32 bits count would fill more than all memory.
    if !heap.is_in_range(entry) {
        return Err(AllocError);
    }
    match heap.apply(entry) {
        Ok(applied) => Ok(applied),
        Err(ApplyFault::NotLegal) => unreachable!(),
        Err(ApplyFault::Memory) => Err(AllocError),
    }
}

// The replies of a domain in a legal history.
#[tactic(auto, using(crate::proofs::OfScheduled::TextLemmas::may_follow, crate::proofs::OfScheduled::TextLemmas::followed, crate::proofs::OfScheduled::TextLemmas::replied))]
fn replies_of(
    alloc: Global,
    sizes: &Sizes,
    domain: u32,
    history: &[Entry],
) -> Result<Vec<Reply>, AllocError>
    requires limits { IsWithinLimits sizes.now }
    requires legal { Legal sizes.now history.now }
    ensures { IfOk result (λ v. v.items ≡ replies sizes.now history.now domain) }
{
    let mut heap = SlowHeap::of_sizes(alloc, sizes)?;
    let mut own = Vec::new(alloc);
    'entries: for entry in history {
        let applied = follow(&mut heap, entry)?;
        add_reply(&mut own, is_own(domain, entry), applied)?;
    }
    Ok(own)
}

// Adds the line of a reply.
fn push_reply(text: &mut Vec<u8>, reply: &Reply) -> Result<(), AllocError>
    ensures { OnOk result (text.new.items ≡ text.old.items ++ line (reply_text reply.now)) }
{
    let mut own: Line = [0; 64];
    let length = print_reply(reply, &mut own);
    text.extend_from_slice(&own[..length])
}

// Adds the heading of a domain.
fn push_heading(text: &mut Vec<u8>, domain: u32) -> Result<(), AllocError>
    ensures { OnOk result (text.new.items ≡ text.old.items ++ line (heading_text domain)) }
{
    let mut own: Line = [0; 64];
    let length = print_heading(domain, &mut own);
    text.extend_from_slice(&own[..length])
}

// Adds the heading and the lines of a domain.
fn push_section(text: &mut Vec<u8>, domain: u32, own: &[Reply]) -> Result<(), AllocError>
    ensures { OnOk result (text.new.items ≡ text.old.items ++ (line (heading_text domain) ++ printed own.now)) }
{
    push_heading(text, domain)?;
    for reply in own {
        push_reply(text, reply)?;
    }
    Ok(())
}

// What a legal history prints.
#[tactic(auto, using(crate::proofs::OfScheduled::ListLemmas::flat_map_more))]
fn text_of(alloc: Global, sizes: &Sizes, history: &[Entry]) -> Result<Vec<u8>, AllocError>
    requires limits { IsWithinLimits sizes.now }
    requires legal { Legal sizes.now history.now }
    ensures { IfOk result (λ v. v.items ≡ output sizes.now history.now) }
{
    let mut text = Vec::new(alloc);
    'domains: for domain in 0..sizes.domains {
        let own = replies_of(alloc, sizes, domain, history)?;
        push_section(&mut text, domain, &own)?;
    }
    Ok(text)
}

/// What the history of a script under a schedule prints, on a heap of these sizes: for each domain its heading and its lines.
///
/// `IsPlainScript`: no section spawns or joins. There may be no memory for it.
pub fn scheduled_text(
    alloc: Global,
    sizes: &Sizes,
    script: &Script,
    items: &[Item],
) -> Result<Vec<u8>, AllocError>
    requires limits { IsWithinLimits sizes.now }
    requires sections { length script.now.sections ≡ sizes.now.domains }
    requires plain { IsPlainScript script.now.sections }
    ensures { IfOk result (λ v. v.items ≡ output sizes.now (scheduled sizes.now script.now.sections items.now)) }
{
    let history = scheduled_history(alloc, sizes, script, items)?;
    text_of(alloc, sizes, &history)
}
