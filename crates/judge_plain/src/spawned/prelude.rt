//! The entries by which the hidden block is made.
ghost use Rattle.std.specs.Prelude.{◌≡◌, ◌≤◌, ◌++◌, ◌∷◌, IsTrue, IfSome, false};
ghost use Rattle.model_core.specs.declared.entry.Entry.TheVariants.{Command as CommandOf};
ghost use Rattle.model_traces.specs.Spawns.Hidden.{prelude};
ghost use Rattle.judge_plain.specs.Spawned.Prelude.{hiding, loads};

use crate::history::same_command;
use model_core::command::Command;
use model_core::entry::Entry;

// Whether an entry is this command of a domain, and not answered `full`.
fn is_made(entry: &Entry, d: u32, made: Command) -> bool
    ensures { IsTrue result → entry.now ≡ CommandOf d made false }
{
    match entry {
        Entry::Command {
            domain,
            command,
            full,
        } => *domain == d && !*full && same_command(*command, made),
        _ => false,
    }
}

// What stands behind this command of a domain.
fn behind_made(history: &[Entry], d: u32, made: Command) -> Option<&[Entry]>
    ensures { IfSome result (λ rest. history.now ≡ CommandOf d made false ∷ rest.now) }
{
    let (first, rest) = history.split_first()?;
    if is_made(first, d, made) {
        Some(rest)
    } else {
        None
    }
}

// What stands behind the commands by which the other domains take the hidden block.
fn behind_loads(history: &[Entry], domains: u32) -> Option<&[Entry]>
    requires { 1 ≤ domains }
    ensures { IfSome result (λ rest. history.now ≡ loads domains ++ rest.now) }
{
    let mut rest = history;
    for d in 1..domains {
        rest = behind_made(
            rest,
            d,
            Command::Load {
                dst: 15,
                src: 0,
                index: 15,
            },
        )?;
    }
    Some(rest)
}

// What stands behind the commands by which the shared block lets go of the hidden one.
fn behind_hiding(history: &[Entry]) -> Option<&[Entry]>
    ensures { IfSome result (λ rest. history.now ≡ hiding ++ rest.now) }
{
    let rest = behind_made(history, 0, Command::PutInt { dst: 14, value: 0 })?;
    let rest = behind_made(
        rest,
        0,
        Command::Store {
            block: 0,
            index: 15,
            item: 14,
        },
    )?;
    behind_made(rest, 0, Command::Forget { dst: 14 })
}

/// What stands behind the entries by which the hidden block of so many domains is made.
pub(crate) fn behind_prelude(history: &[Entry], domains: u32) -> Option<&[Entry]>
    requires { 1 ≤ domains }
    ensures { IfSome result (λ rest. history.now ≡ prelude domains ++ rest.now) }
{
    let rest = behind_made(
        history,
        0,
        Command::AllocMaj {
            dst: 15,
            tag: 0,
            fields: 24,
        },
    )?;
    let rest = behind_made(
        rest,
        0,
        Command::Store {
            block: 0,
            index: 15,
            item: 15,
        },
    )?;
    let rest = behind_loads(rest, domains)?;
    behind_hiding(rest)
}
