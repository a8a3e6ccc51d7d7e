//! All kinds of entries.
ghost use Rattle.std.specs.Prelude.{◌≡◌, ◌<◌, ◌↔◌, IsTrue, length};
ghost use Rattle.model_core.specs.Domains.{IsShaped, domain_at, with_domain};
ghost use Rattle.model_core.specs.Entries.{next, IsInRange, HasNextSerial, ended};
ghost use Rattle.judge_plain.specs.Follows.{Follows};

use crate::collections::{collected_entry, cut_entry, done_entry, seal_entry};
use crate::commands::{command_entry, is_allocation};
use crate::queueing::{last_entry, queue_entry, ran_entry};
use crate::wiping::wipe_entry;
use model_core::command::Command;
use model_core::entry::Entry;
use model_core::graph::Value;
use model_core::reply::{Applied, ApplyFault};
use model_core::state::{Mode, State};
use std::alloc::Global;

// Whether a domain that the entry names is one of the heap's, and an allocation finds a serial.
pub(crate) fn is_in_range(state: &State, entry: &Entry) -> bool
    requires { IsShaped state.now }
    ensures { IsTrue result ↔ IsInRange state.now entry.now }
{
    match entry {
        Entry::Command {
            domain,
            command,
            ..
        } => *domain < state.sizes.domains && has_next_serial(state, *domain as usize, command),
        Entry::End { domain } => *domain < state.sizes.domains,
        Entry::Queue { domain, .. } => *domain < state.sizes.domains,
        Entry::Last { domain, .. } => *domain < state.sizes.domains,
        Entry::Ran { domain } => *domain < state.sizes.domains,
        Entry::Cut | Entry::Seal | Entry::Wipe { .. } | Entry::Collected | Entry::Done => true,
    }
}

// Whether the domain's next serial fits 32 bits, where a command allocates.
fn has_next_serial(state: &State, d: usize, c: &Command) -> bool
    requires { d < length state.now.domains }
    ensures { IsTrue result ↔ HasNextSerial state.now d c.now }
{
    let domains = &state.domains;
    !is_allocation(c) || domains.items[d].serial < u32::MAX
}

// Follows an entry, where it is allowed.
pub(crate) fn follow(alloc: Global, state: &mut State, entry: &Entry) -> Result<Applied, ApplyFault>
    requires shaped { IsShaped state.old }
    requires in_range { IsInRange state.old entry.now }
    ensures { Follows state.old state.new entry.now result }
{
    match entry {
        Entry::Command {
            domain,
            command,
            full,
        } => command_entry(alloc, state, *domain as usize, command, *full),
        Entry::End { domain } => end_entry(state, *domain as usize),
        Entry::Cut => cut_entry(alloc, state),
        Entry::Queue { domain, places } => queue_entry(alloc, state, *domain as usize, places),
        Entry::Seal => seal_entry(alloc, state),
        Entry::Wipe { label, keys } => wipe_entry(alloc, state, *label, keys),
        Entry::Last { domain, place } => last_entry(alloc, state, *domain as usize, *place),
        Entry::Collected => collected_entry(alloc, state),
        Entry::Done => done_entry(alloc, state),
        Entry::Ran { domain } => ran_entry(state, *domain as usize),
    }
}

// The entry of a domain's end.
fn end_entry(state: &mut State, d: usize) -> Result<Applied, ApplyFault>
    requires { d < length state.old.domains }
    ensures { Follows state.old state.new (Entry.End d) result }
{
    let domains = &state.domains;
    let domain = &domains.items[d];
    let queue = &domain.queue;
    if state.mode != Mode::Open || domain.ended || !queue.items.is_empty() {
        return Err(ApplyFault::NotLegal);
    }
    end(state, d);
    Ok(Applied::Silent)
}

// Drops the registers and the registrations of a domain.
fn end(state: &mut State, d: usize)
    requires { d < length state.old.domains }
    ensures { state.new ≡ with_domain state.old d (ended (domain_at state.old d)) }
{
    let domains = &mut state.domains;
    let domain = &mut domains.items[d];
    domain.ended = true;
    let finals = &mut domain.finals;
    finals.items.clear();
    let lasts = &mut domain.lasts;
    lasts.items.clear();
    let registers = &mut domain.registers;
    registers.items.fill(Value::Nothing);
}
