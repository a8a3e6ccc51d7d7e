//! The entries of commands.
ghost use Rattle.std.specs.Prelude.{◌≡◌, ◌+◌, ◌*◌, ◌<◌, ◌≤◌, length, IfOk, OnOk, OnErr, IsTrue, ◌↔◌};
ghost use Rattle.model_core.specs.Domains.{reserve, IsShaped, IsWithinLimits};
ghost use Rattle.model_core.specs.Commands.{FitsMode, MayBeFull, is_allocation as allocates, CommandAllowed, after_command as command_made, outcome};
ghost use Rattle.model_core.specs.Entries.{HasNextSerial};
ghost use Rattle.judge_plain.specs.Follows.{Follows};
ghost use Rattle.judge_plain.specs.Modes.{mode_for};

use crate::blocks::{add_block, ephemeron, plain, raw};
use crate::ephemerons::{
    check_data, check_key, get_data, get_key, set_data, set_key, write_datum, write_key,
};
use crate::fields::{cas, load, store};
use crate::finalisers::{finalise, finalise_last};
use crate::registers::{put, register};
use crate::roots::live;
use model_core::command::Command;
use model_core::entry::Entry;
use model_core::graph::Value;
use model_core::reply::{Applied, ApplyFault, Reply};
use model_core::state::{Mode, State};
use std::alloc::{AllocError, Global};

// The entry of a command.
pub(crate) fn command_entry(
    alloc: Global,
    state: &mut State,
    d: usize,
    c: &Command,
    full: bool,
) -> Result<Applied, ApplyFault>
    requires domain { d < length state.old.domains }
    requires shaped { IsShaped state.old }
    requires serial { HasNextSerial state.old d c.now }
    ensures { Follows state.old state.new (Entry.Command d c.now full) result }
{
    if !is_command_allowed(state, d, c, full) {
        return Err(ApplyFault::NotLegal);
    }
    let reply = if full {
        Reply::Full
    } else {
        let Ok(reply) = run(alloc, state, d, c) else {
            return Err(ApplyFault::Memory);
        };
        reply
    };
    after_command(state, d);
    Ok(Applied::Replied(reply))
}

// Whether the entry of a command is allowed.
fn is_command_allowed(state: &State, d: usize, c: &Command, full: bool) -> bool
    requires domain { d < length state.now.domains }
    requires shaped { IsShaped state.now }
    ensures { IsTrue result ↔ CommandAllowed state.now d c.now full }
{
    let domains = &state.domains;
    !domains.items[d].ended && fits_mode(state, d, c) && (!full || may_be_full(state, d, c))
}

// Whether a domain may answer a command with `full`.
fn may_be_full(state: &State, d: usize, c: &Command) -> bool
    requires domain { d < length state.now.domains }
    requires shaped { IsShaped state.now }
    ensures { IsTrue result ↔ MayBeFull state.now d c.now }
{
    let domains = &state.domains;
    is_allocation(c) && domains.items[d].fresh && is_kept_enough(state)
}

// Whether so many blocks are kept that the pools may be used up.
fn is_kept_enough(state: &State) -> bool
    requires { IsWithinLimits state.now.sizes }
    ensures { IsTrue result ↔ state.now.sizes.pools ≤ state.now.kept + reserve state.now.sizes + state.now.sizes.classes * state.now.sizes.domains }
{
    let sizes = &state.sizes;
    let reserve = sizes.domains * (sizes.minor_words / 4096 + sizes.classes);
    let begun = sizes.classes * sizes.domains;
    u64::from(sizes.pools - reserve - begun) <= state.kept
}

// The mode that a command needs. The four that stand for several others come in none.
fn mode_needed(c: &Command) -> Option<Mode>
    ensures { result ≡ mode_for c.now }
{
    match c {
        Command::FullMajor => Some(Mode::Answer),
        Command::Spawn { .. }
        | Command::Argument { .. }
        | Command::PutResult { .. }
        | Command::Join { .. } => None,
        _ => Some(Mode::Open),
    }
}

// Whether the mode and the domain's queue allow a command. The four that stand for several others are never allowed.
#[tactic(auto, using(crate::proofs::ModeLemmas::fits_needed, crate::proofs::ModeLemmas::needed_fits))]
fn fits_mode(state: &State, d: usize, c: &Command) -> bool
    requires { d < length state.now.domains }
    ensures { IsTrue result ↔ FitsMode state.now d c.now }
{
    let domains = &state.domains;
    let domain = &domains.items[d];
    let queue = &domain.queue;
    match mode_needed(c) {
        None => false,
        Some(Mode::Answer) => state.mode == Mode::Answer && domain.due == 0,
        Some(_) => state.mode == Mode::Open && queue.items.is_empty(),
    }
}

// Whether a command allocates a block.
pub(crate) fn is_allocation(c: &Command) -> bool
    ensures { result ≡ allocates c.now }
{
    match c {
        Command::Alloc { .. }
        | Command::AllocMaj { .. }
        | Command::Raw { .. }
        | Command::Ephe { .. } => true,
        _ => false,
    }
}

// A domain has made the entry of a command: its last complete collection isn't fresh any more, and it owes what its queue holds.
fn after_command(state: &mut State, d: usize)
    requires { d < length state.old.domains }
    ensures { state.new ≡ command_made state.old d }
{
    let domains = &mut state.domains;
    let domain = &mut domains.items[d];
    let queue = &domain.queue;
    domain.due = queue.items.len() as u64;
    domain.fresh = false;
}

// A command that isn't answered `full`.
fn run(alloc: Global, state: &mut State, d: usize, c: &Command) -> Result<Reply, AllocError>
    requires domain { d < length state.old.domains }
    requires shaped { IsShaped state.old }
    requires serial { HasNextSerial state.old d c.now }
    ensures reply { IfOk result (λ r. r ≡ (outcome state.old d c.now).reply) }
    ensures state { OnOk result (state.new ≡ (outcome state.old d c.now).state) }
    ensures err { OnErr result (state.new ≡ state.old) }
{
    match *c {
        Command::PutInt { dst, value } => Ok(put(state, d, dst, Value::Int(value))),
        Command::Copy { dst, src } => {
            let value = register(state, d, src);
            Ok(put(state, d, dst, value))
        }
        Command::Forget { dst } => Ok(put(state, d, dst, Value::Nothing)),
        Command::Alloc { dst, tag, fields } | Command::AllocMaj { dst, tag, fields } => {
            let node = plain(alloc, tag, fields)?;
            add_block(state, d, dst, node)
        }
        Command::Load { dst, src, index } => Ok(load(state, d, dst, src, index)),
        Command::Store { block, index, item } => Ok(store(state, d, block, index, item)),
        Command::Raw { dst, tag, fields } => {
            let node = raw(alloc, tag, fields)?;
            add_block(state, d, dst, node)
        }
        Command::Cas {
            block,
            index,
            expected,
            item,
        } => Ok(cas(state, d, block, index, expected, item)),
        Command::Ephe { dst, keys } => {
            let node = ephemeron(alloc, keys)?;
            add_block(state, d, dst, node)
        }
        Command::SetKey { ephe, index, item } => Ok(set_key(state, d, ephe, index, item)),
        Command::UnsetKey { ephe, index } => {
            Ok(write_key(state, d, ephe, usize::from(index), None))
        }
        Command::GetKey { dst, ephe, index } => Ok(get_key(state, d, dst, ephe, index)),
        Command::CheckKey { ephe, index } => Ok(check_key(state, d, ephe, index)),
        Command::SetData { ephe, item } => Ok(set_data(state, d, ephe, item)),
        Command::UnsetData { ephe } => Ok(write_datum(state, d, ephe, Value::Nothing)),
        Command::GetData { dst, ephe } => Ok(get_data(state, d, dst, ephe)),
        Command::CheckData { ephe } => Ok(check_data(state, d, ephe)),
        Command::Finalise { item, number, dst } => finalise(alloc, state, d, item, number, dst),
        Command::FinaliseLast { item, number } => finalise_last(alloc, state, d, item, number),
        Command::Poll | Command::Minor | Command::Major => Ok(Reply::Done),
        Command::FullMajor => live(alloc, state),
        Command::Spawn { .. }
        | Command::Argument { .. }
        | Command::PutResult { .. }
        | Command::Join { .. } => Ok(Reply::Done),
    }
}
