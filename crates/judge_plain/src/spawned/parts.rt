//! The commands that a command of a section stands for.
ghost use Rattle.std.specs.Prelude.{◌≡◌, ◌<◌, ◌∷◌, [], true, false, pos};
ghost use Rattle.model_core.specs.declared.command.Command.TheVariants.{Load as LoadOf, Store as StoreOf};
ghost use Rattle.model_traces.specs.Spawns.Expansion.{finish_commands, flag_load, spawn_commands};
ghost use Rattle.model_traces.specs.Spawns.Hidden.{argument_of, flag_of, hidden, result_of, scratch};

use model_core::command::Command;

// The register of the hidden block, and the one that is used besides.
const HIDDEN: u8 = 15;

const SCRATCH: u8 = 14;

/// The load of a section's flag.
pub(crate) fn awaited(section: u32) -> Command
    requires { section < 8 }
    ensures { result ≡ flag_load section }
{
    Command::Load {
        dst: SCRATCH,
        src: HIDDEN,
        index: section as u16,
    }
}

// The store of a section's flag.
fn told(section: u32) -> Command
    requires { section < 8 }
    ensures { result ≡ StoreOf hidden (flag_of section) scratch }
{
    Command::Store {
        block: HIDDEN,
        index: section as u16,
        item: SCRATCH,
    }
}

// The store of a section's argument.
fn passed(section: u32, item: u8) -> Command
    requires { section < 8 }
    ensures { result ≡ StoreOf hidden (argument_of section) item }
{
    Command::Store {
        block: HIDDEN,
        index: section as u16 + 8,
        item,
    }
}

/// A spawn with an argument.
pub(crate) fn spawned_with(section: u32, item: u8) -> [Command; 3]
    requires { section < 8 }
    ensures { result ≡ spawn_commands true section item }
{
    [
        passed(section, item),
        Command::PutInt {
            dst: SCRATCH,
            value: 1,
        },
        told(section),
    ]
}

/// A spawn without one.
pub(crate) fn spawned_without(section: u32, item: u8) -> [Command; 4]
    requires { section < 8 }
    ensures { result ≡ spawn_commands false section item }
{
    let _ = item;
    [
        Command::PutInt {
            dst: SCRATCH,
            value: 0,
        },
        passed(section, SCRATCH),
        Command::PutInt {
            dst: SCRATCH,
            value: 1,
        },
        told(section),
    ]
}

/// The load of a section's result.
pub(crate) fn joined(dst: u8, section: u32) -> [Command; 1]
    requires { section < 8 }
    ensures { result ≡ LoadOf dst hidden (result_of section) ∷ [] }
{
    [Command::Load {
        dst,
        src: HIDDEN,
        index: section as u16 + 16,
    }]
}

/// The load of a section's argument.
pub(crate) fn argument(dst: u8, d: u32) -> [Command; 1]
    requires { d < 8 }
    ensures { result ≡ LoadOf dst hidden (argument_of d) ∷ [] }
{
    [Command::Load {
        dst,
        src: HIDDEN,
        index: d as u16 + 8,
    }]
}

/// The store of a section's result.
pub(crate) fn put_result(item: u8, d: u32) -> [Command; 1]
    requires { d < 8 }
    ensures { result ≡ StoreOf hidden (result_of d) item ∷ [] }
{
    [Command::Store {
        block: HIDDEN,
        index: d as u16 + 16,
        item,
    }]
}

/// The end of a section.
pub(crate) fn finished(d: u32) -> [Command; 2]
    requires { d < 8 }
    ensures { result ≡ finish_commands d }
{
    [
        Command::PutInt {
            dst: SCRATCH,
            value: 2,
        },
        told(d),
    ]
}
