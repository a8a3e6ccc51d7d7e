//! Registrations of finalisers.
ghost use Rattle.std.specs.Prelude.{◌≡◌, ◌<◌, length, IfOk, OnOk, OnErr};
ghost use Rattle.model_core.specs.Domains.{domain_at, with_domain};
ghost use Rattle.model_core.specs.Commands.{outcome};

use crate::registers::register;
use model_core::command::Command;
use model_core::graph::Value;
use model_core::reply::Reply;
use model_core::sequence::{Sequence, with_last};
use model_core::state::{Finaliser, LastFinaliser, State};
use std::alloc::{AllocError, Global};

// Registers the label in `item` for `finalise`.
pub(crate) fn finalise(
    alloc: Global,
    state: &mut State,
    d: usize,
    item: u8,
    number: u32,
    dst: u8,
) -> Result<Reply, AllocError>
    requires { d < length state.old.domains }
    ensures reply { IfOk result (λ r. r ≡ (outcome state.old d (Command.Finalise item number dst)).reply) }
    ensures state { OnOk result (state.new ≡ (outcome state.old d (Command.Finalise item number dst)).state) }
    ensures err { OnErr result (state.new ≡ state.old) }
{
    let Value::Block(label) = register(state, d, item) else {
        return Ok(Reply::BadType);
    };
    let domains = &state.domains;
    let added = Finaliser {
        number,
        label,
        register: dst,
    };
    let finals = with_last(alloc, &domains.items[d].finals, added)?;
    set_finals(state, d, finals);
    Ok(Reply::Done)
}

// Registers the label in `item` for `finalise_last`.
pub(crate) fn finalise_last(
    alloc: Global,
    state: &mut State,
    d: usize,
    item: u8,
    number: u32,
) -> Result<Reply, AllocError>
    requires { d < length state.old.domains }
    ensures reply { IfOk result (λ r. r ≡ (outcome state.old d (Command.FinaliseLast item number)).reply) }
    ensures state { OnOk result (state.new ≡ (outcome state.old d (Command.FinaliseLast item number)).state) }
    ensures err { OnErr result (state.new ≡ state.old) }
{
    let Value::Block(label) = register(state, d, item) else {
        return Ok(Reply::BadType);
    };
    let domains = &state.domains;
    let lasts = with_last(
        alloc,
        &domains.items[d].lasts,
        LastFinaliser { number, label },
    )?;
    set_lasts(state, d, lasts);
    Ok(Reply::Done)
}

// A domain's registrations of `finalise` become these.
fn set_finals(state: &mut State, d: usize, finals: Sequence<Finaliser>)
    requires { d < length state.old.domains }
    ensures { state.new ≡ with_domain state.old d (record (domain_at state.old d) { finals = finals }) }
{
    let domains = &mut state.domains;
    let domain = &mut domains.items[d];
    domain.finals = finals;
}

// A domain's registrations of `finalise_last` become these.
fn set_lasts(state: &mut State, d: usize, lasts: Sequence<LastFinaliser>)
    requires { d < length state.old.domains }
    ensures { state.new ≡ with_domain state.old d (record (domain_at state.old d) { lasts = lasts }) }
{
    let domains = &mut state.domains;
    let domain = &mut domains.items[d];
    domain.lasts = lasts;
}
