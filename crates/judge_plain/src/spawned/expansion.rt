//! The steps of one command of a section.
ghost use Rattle.std.specs.Prelude.{◌≡◌, ◌<◌, pos, IfSome};
ghost use Rattle.model_traces.specs.Spawns.Expansion.{IsExpansion, IsJoin, IsSpawn, IsStart, Make, Waits, finish_commands};
ghost use Rattle.judge_plain.specs.Spawned.Parts.{BeginsWith};

use crate::spawned::made::Made;
use crate::spawned::parts::{
    argument, awaited, finished, joined, put_result, spawned_with, spawned_without,
};
use model_core::command::Command;

// What stands behind these commands.
fn behind_commands<'a>(steps: &'a [Made], commands: &[Command]) -> Option<&'a [Made]>
    ensures { IfSome result (λ rest. BeginsWith (Make commands.now) steps.now rest.now) }
{
    let mut rest = steps;
    for command in commands {
        let (first, behind) = rest.split_first()?;
        if !first.is(*command) {
            return None;
        }
        rest = behind;
    }
    Some(rest)
}

// What stands behind the loads by which a section waits: up to the first that answers this integer.
fn behind_waits(steps: &[Made], section: u32, until: u32) -> Option<&[Made]>
    requires { section < 8 }
    ensures { IfSome result (λ rest. BeginsWith (Waits section (pos until)) steps.now rest.now) }
{
    let load = awaited(section);
    let mut rest = steps;
    'waiting: for _ in 0..steps.len() {
        let (first, behind) = rest.split_first()?;
        if !first.is(load) {
            return None;
        }
        if first.answers(i64::from(until)) {
            return Some(behind);
        }
        rest = behind;
    }
    None
}

// What stands behind the steps of a spawn.
fn behind_spawn(steps: &[Made], section: u32, item: u8) -> Option<&[Made]>
    requires { section < 8 }
    ensures { IfSome result (λ rest. BeginsWith (IsSpawn section item) steps.now rest.now) }
{
    let (first, _) = steps.split_first()?;
    if first.held_something(item) {
        behind_commands(steps, &spawned_with(section, item))
    } else {
        behind_commands(steps, &spawned_without(section, item))
    }
}

// What stands behind the steps of a join.
fn behind_join(steps: &[Made], dst: u8, section: u32) -> Option<&[Made]>
    requires { section < 8 }
    ensures { IfSome result (λ rest. BeginsWith (IsJoin dst section) steps.now rest.now) }
{
    let rest = behind_waits(steps, section, 2)?;
    behind_commands(rest, &joined(dst, section))
}

/// What stands behind the steps of a command of section `d`. `None`: they aren't such.
pub(crate) fn behind_expansion(steps: &[Made], d: u32, command: Command) -> Option<&[Made]>
    requires { d < 8 }
    ensures { IfSome result (λ rest. BeginsWith (IsExpansion d command) steps.now rest.now) }
{
    match command {
        Command::Spawn { section, item } => {
            if section < 8 {
                behind_spawn(steps, section, item)
            } else {
                None
            }
        }
        Command::Join { dst, section } => {
            if section < 8 {
                behind_join(steps, dst, section)
            } else {
                None
            }
        }
        Command::Argument { dst } => behind_commands(steps, &argument(dst, d)),
        Command::PutResult { item } => behind_commands(steps, &put_result(item, d)),
        _ => behind_commands(steps, &[command]),
    }
}

/// What stands behind the steps by which a section waits for its spawn.
pub(crate) fn behind_start(steps: &[Made], d: u32) -> Option<&[Made]>
    requires { d < 8 }
    ensures { IfSome result (λ rest. BeginsWith (IsStart d) steps.now rest.now) }
{
    behind_waits(steps, d, 1)
}

/// What stands behind the steps by which a section tells its end.
pub(crate) fn behind_finish(steps: &[Made], d: u32) -> Option<&[Made]>
    requires { d < 8 }
    ensures { IfSome result (λ rest. BeginsWith (Make (finish_commands d)) steps.now rest.now) }
{
    behind_commands(steps, &finished(d))
}
