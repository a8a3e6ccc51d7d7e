//! Profiles, and what each allows.
ghost use Rattle.std.specs.Prelude.{◌≡◌};
ghost use Rattle.judge_profiles.specs.Profiles.{drops, is_forget, is_full_major, lacks, may_drop, may_swap, passes, passes_command, swaps};

use crate::act::Act;
use model_core::command::Command;

/// What a runtime may do otherwise.
#[derive(Clone, Copy, Debug, PartialEq, Eq)]
pub enum Profile {
    /// Nothing.
    Strict,
    /// As OCaml 5: a complete collection is up to several, between which finalisers run, all before its reply; finalisers of a
    /// domain that has ended aren't told there; a store may come later than loads of other fields behind it.
    Ocaml5,
    /// No ephemerons: weak keys alone, one in each.
    WeakNone,
    /// No finalisers that bring their block back.
    NoFinaliseFirst,
}

// Whether a command may be made before a store of a register into a field of the block in another, in front of which it stands.
fn passes(command: Command, block: u8, index: u16, item: u8) -> bool
    ensures { result ≡ passes command block index item }
{
    match command {
        Command::Load {
            dst,
            index: other,
            ..
        } => other != index && dst != block && dst != item,
        Command::PutInt { dst, .. } => dst != block && dst != item,
        Command::Copy { dst, .. } => dst != block && dst != item,
        Command::Forget { dst } => dst != block && dst != item,
        _ => false,
    }
}

// Whether a command is `full_major`.
fn is_full_major(command: Command) -> bool
    ensures { result ≡ is_full_major command }
{
    matches!(command, Command::FullMajor)
}

// Whether a command empties a register.
fn is_forget(command: Command) -> bool
    ensures { result ≡ is_forget command }
{
    matches!(command, Command::Forget { .. })
}

// Whether a command may be made before another one in front of which it stands.
fn passes_command(command: Command, other: Command) -> bool
    ensures { result ≡ passes_command command other }
{
    match other {
        Command::Store { block, index, item } => passes(command, block, index, item),
        _ => false,
    }
}

// Whether OCaml may show two neighbours the other way round.
fn swaps(first: Act, second: Act) -> bool
    ensures { result ≡ swaps first second }
{
    match (first, second) {
        (Act::Made { command, .. }, Act::Ran { .. }) => is_full_major(command),
        (Act::Made { command, .. }, Act::Made { command: other, .. }) => {
            passes_command(command, other)
        }
        (Act::Ran { .. }, _) => false,
    }
}

/// Whether two neighbours may be shown the other way round.
pub(crate) fn may_swap(profile: Profile, first: Act, second: Act) -> bool
    ensures { result ≡ may_swap profile first second }
{
    match profile {
        Profile::Ocaml5 => swaps(first, second),
        _ => false,
    }
}

// Whether OCaml need not show what a domain has done, by what it has done next.
fn drops(act: Act, behind: Option<Act>) -> bool
    ensures { result ≡ drops act behind }
{
    match (act, behind) {
        (Act::Made { command, .. }, Some(Act::Made { command: other, .. })) => {
            is_full_major(command) && is_full_major(other)
        }
        (Act::Made { .. }, Some(Act::Ran { .. })) => false,
        (Act::Made { command, .. }, None) => is_forget(command),
        (Act::Ran { .. }, Some(_)) => false,
        (Act::Ran { .. }, None) => true,
    }
}

/// Whether what a domain has done need not be shown, by what it has done next.
pub(crate) fn may_drop(profile: Profile, act: Act, behind: Option<Act>) -> bool
    ensures { result ≡ may_drop profile act behind }
{
    match profile {
        Profile::Ocaml5 => drops(act, behind),
        _ => false,
    }
}

/// Whether a runtime hasn't what a command does, and may refuse it.
pub(crate) fn lacks(profile: Profile, command: Command) -> bool
    ensures { result ≡ lacks profile command }
{
    match (profile, command) {
        (Profile::WeakNone, Command::Ephe { keys, .. }) => keys > 1,
        (Profile::WeakNone, Command::SetData { .. }) => true,
        (Profile::WeakNone, Command::UnsetData { .. }) => true,
        (Profile::WeakNone, Command::GetData { .. }) => true,
        (Profile::WeakNone, Command::CheckData { .. }) => true,
        (Profile::NoFinaliseFirst, Command::Finalise { .. }) => true,
        _ => false,
    }
}
