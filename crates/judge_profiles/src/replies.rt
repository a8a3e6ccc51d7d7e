//! The commands and the replies of what a domain does.
ghost use Rattle.std.specs.Prelude.{◌≡◌, ◌∷◌, [], IfOk, IsTrue};
ghost use Rattle.judge_profiles.specs.Shown.{commands_of, replies_of};

use crate::act::Act;
use judge_plain::history::same_command;
use model_core::command::Command;
use model_core::reply::Reply;
use std::alloc::{AllocError, Global};

// The commands, in order.
fn commands_of(alloc: Global, acts: &[Act]) -> Result<Vec<Command>, AllocError>
    ensures { IfOk result (λ v. v.items ≡ commands_of acts.now) }
{
    let mut commands = Vec::new(alloc);
    for act in acts {
        if let Act::Made { command, .. } = act {
            commands.push(*command)?;
        }
    }
    Ok(commands)
}

// What one is answered.
fn reply_of(act: &Act) -> Reply
    ensures { replies_of (act.now ∷ []) ≡ result ∷ [] }
{
    match act {
        Act::Made { reply, .. } => *reply,
        Act::Ran { reply } => *reply,
    }
}

/// The replies, in order.
pub(crate) fn replies_of(alloc: Global, acts: &[Act]) -> Result<Vec<Reply>, AllocError>
    ensures { IfOk result (λ v. v.items ≡ replies_of acts.now) }
{
    let mut replies = Vec::new(alloc);
    for act in acts {
        replies.push(reply_of(act))?;
    }
    Ok(replies)
}

// Whether commands are the same.
#[tactic(auto, using(crate::proofs::ShownLemmas::same_whole))]
fn are_same(xs: &[Command], ys: &[Command]) -> bool
    ensures { IsTrue result → xs.now ≡ ys.now }
{
    if xs.len() != ys.len() {
        return false;
    }
    for i in 0..xs.len() {
        if !same_command(xs[i], ys[i]) {
            return false;
        }
    }
    true
}

/// Whether these are the commands, in order.
pub(crate) fn makes(alloc: Global, acts: &[Act], section: &[Command]) -> Result<bool, AllocError>
    ensures { IfOk result (λ yes. IsTrue yes → commands_of acts.now ≡ section.now) }
{
    let commands = commands_of(alloc, acts)?;
    Ok(are_same(&commands, section))
}
