//! The steps of a section.
ghost use Rattle.std.specs.Prelude.{◌≡◌, ◌<◌, IsTrue, IfSome};
ghost use Rattle.model_traces.specs.Spawns.Expansion.{AreExpansions, IsSection, IsStart, Make, finish_commands};
ghost use Rattle.judge_plain.specs.Spawned.Parts.{BeginsWith, StandsIf};

use crate::spawned::expansion::{behind_expansion, behind_finish, behind_start};
use crate::spawned::made::Made;
use model_core::command::Command;

// What stands behind the steps of some commands of section `d`.
fn behind_expansions<'a>(steps: &'a [Made], d: u32, commands: &[Command]) -> Option<&'a [Made]>
    requires { d < 8 }
    ensures { IfSome result (λ rest. BeginsWith (AreExpansions d commands.now) steps.now rest.now) }
{
    let mut rest = steps;
    for command in commands {
        rest = behind_expansion(rest, d, *command)?;
    }
    Some(rest)
}

// The same of its start, where a spawn names it.
fn behind_spawned_start(steps: &[Made], d: u32, spawned: bool) -> Option<&[Made]>
    requires { d < 8 }
    ensures { IfSome result (λ rest. BeginsWith (StandsIf spawned (IsStart d)) steps.now rest.now) }
{
    if spawned {
        behind_start(steps, d)
    } else {
        Some(steps)
    }
}

// The same of its end.
fn behind_spawned_finish(steps: &[Made], d: u32, spawned: bool) -> Option<&[Made]>
    requires { d < 8 }
    ensures { IfSome result (λ rest. BeginsWith (StandsIf spawned (Make (finish_commands d))) steps.now rest.now) }
{
    if spawned {
        behind_finish(steps, d)
    } else {
        Some(steps)
    }
}

// What stands behind the steps of section `d`.
fn behind_section_steps<'a>(
    steps: &'a [Made],
    d: u32,
    spawned: bool,
    commands: &[Command],
) -> Option<&'a [Made]>
    requires { d < 8 }
    ensures { IfSome result (λ rest. BeginsWith (IsSection d spawned commands.now) steps.now rest.now) }
{
    let rest = behind_spawned_start(steps, d, spawned)?;
    let rest = behind_expansions(rest, d, commands)?;
    behind_spawned_finish(rest, d, spawned)
}

/// Whether these are the steps of section `d`, which has these commands.
pub(crate) fn is_section(steps: &[Made], d: u32, spawned: bool, commands: &[Command]) -> bool
    requires { d < 8 }
    ensures { IsTrue result → IsSection d spawned commands.now steps.now }
{
    match behind_section_steps(steps, d, spawned, commands) {
        Some(rest) => rest.is_empty(),
        None => false,
    }
}
