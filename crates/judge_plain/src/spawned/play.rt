//! Plays entries on the slow heap, and notes what one domain does in them.
ghost use Rattle.std.specs.Prelude.{◌≡◌, ◌++◌, IfOk, OnOk, IfSome};
ghost use Rattle.model_core.specs.declared.state.State.{State};
ghost use Rattle.model_core.specs.Domains.{domain_at};
ghost use Rattle.model_core.specs.Entries.{reply};
ghost use Rattle.model_traces.specs.Spawns.Expansion.{step_of};
ghost use Rattle.model_traces.specs.Spawns.Printed.{is_printed_entry as is_told_entry};
ghost use Rattle.judge_plain.specs.Spawned.Told.{Tells};

use crate::SlowHeap;
use crate::history::follow;
use crate::own::{add_reply, has_ended};
use crate::spawned::made::Made;
use crate::spawned::printing::is_printed;
use model_core::entry::Entry;
use model_core::graph::Value;
use model_core::reply::{Applied, Reply};
use model_core::sequence::{Sequence, copy};
use std::alloc::{AllocError, Global};

/// What a domain has done in some entries.
#[derive(Drop)]
pub(crate) struct Told {
    /// Its commands.
    pub steps: Vec<Made>,
    /// Whether it has ended.
    pub ended: bool,
}

// Whether an entry's reply is printed in a domain's section.
fn is_printed_entry(d: u32, entry: &Entry) -> bool
    ensures { result ≡ is_told_entry d entry.now }
{
    match entry {
        Entry::Command {
            domain,
            command,
            ..
        } => *domain == d && is_printed(d, command),
        Entry::Ran { domain } => *domain == d,
        _ => false,
    }
}

// A copy of what the registers of a domain hold.
fn registers_of(alloc: Global, heap: &SlowHeap, d: u32) -> Result<Sequence<Value>, AllocError>
    ensures { IfOk result (λ held. held ≡ (domain_at heap.now d).registers) }
{
    match heap.state().domains.items.get(d as usize) {
        Some(domain) => copy(alloc, &domain.registers),
        None => Ok(Sequence::make(Vec::new(alloc))),
    }
}

// Adds the step of an entry, where it is a command of the domain.
fn add_step(
    steps: &mut Vec<Made>,
    held: Sequence<Value>,
    d: u32,
    entry: &Entry,
    applied: Applied,
) -> Result<(), AllocError>
    ensures { (s : State) → held ≡ (domain_at s d).registers → applied ≡ reply s entry.now → OnOk result (steps.new.items ≡ steps.old.items ++ step_of s d entry.now) }
{
    if let Entry::Command {
        domain,
        command,
        ..
    } = entry
    {
        if let Applied::Replied(answer) = applied {
            if *domain == d {
                steps.push(Made {
                    held,
                    command: *command,
                    answer,
                })?;
            }
        }
    }
    Ok(())
}

/// Plays entries, adds the replies of a domain that are printed, and answers what it has done. `None`: an entry isn't allowed.
pub(crate) fn play(
    alloc: Global,
    heap: &mut SlowHeap,
    d: u32,
    entries: &[Entry],
    replies: &mut Vec<Reply>,
) -> Result<Option<Told>, AllocError>
    ensures { IfOk result (λ o. IfSome o (λ told. Tells heap.old heap.new d entries.now told.steps.items told.ended replies.old.items replies.new.items)) }
{
    let mut steps = Vec::new(alloc);
    let mut ended = false;
    for entry in entries {
        let held = registers_of(alloc, heap, d)?;
        let Some(applied) = follow(heap, entry)? else {
            return Ok(None);
        };
        add_step(&mut steps, held, d, entry, applied)?;
        add_reply(replies, is_printed_entry(d, entry), applied)?;
        ended = has_ended(ended, d, entry);
    }
    Ok(Some(Told { steps, ended }))
}
