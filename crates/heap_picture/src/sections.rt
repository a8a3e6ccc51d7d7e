//! The commands that a run of one domain makes of a script.
ghost use Rattle.std.specs.Prelude.{◌≡◌, ◌<◌, ◌++◌, [], length, map, slice_index_or, IfOk, OnOk};
ghost use Rattle.heap_picture.specs.Sections.{front, stands_for, made_of};

use model_core::command::Command;
use std::alloc::{AllocError, Global};
use text_script::Script;

// The register that holds the block through which sections pass values, and the one that is used besides.
const HIDDEN: u8 = 15;

const SCRATCH: u8 = 14;
// The field of the shared block through which that block is handed out.
const HANDED: u16 = 15;
// Where its fields have the argument of section 0, and its result.
const ARGUMENT: u16 = 8;

const RESULT: u16 = 16;

// The command that a command of section 0 stands for.
fn command_for(command: Command) -> Command
    ensures { result ≡ stands_for command }
{
    match command {
        Command::Argument { dst } => Command::Load {
            dst,
            src: HIDDEN,
            index: ARGUMENT,
        },
        Command::PutResult { item } => Command::Store {
            block: HIDDEN,
            index: RESULT,
            item,
        },
        _ => command,
    }
}

// Adds the commands before the first section begins.
fn push_front(made: &mut Vec<Command>) -> Result<(), AllocError>
    ensures { OnOk result (made.new.items ≡ made.old.items ++ front) }
{
    made.push(Command::AllocMaj {
        dst: HIDDEN,
        tag: 0,
        fields: 24,
    })?;
    made.push(Command::Store {
        block: 0,
        index: HANDED,
        item: HIDDEN,
    })?;
    made.push(Command::PutInt {
        dst: SCRATCH,
        value: 0,
    })?;
    made.push(Command::Store {
        block: 0,
        index: HANDED,
        item: SCRATCH,
    })?;
    made.push(Command::Forget { dst: SCRATCH })?;
    Ok(())
}

// Adds the commands that these stand for.
fn push_section(made: &mut Vec<Command>, commands: &[Command]) -> Result<(), AllocError>
    ensures { OnOk result (made.new.items ≡ made.old.items ++ map stands_for commands.now) }
{
    for command in commands {
        made.push(command_for(*command))?;
    }
    Ok(())
}

/// The commands that a run of one domain makes of a script.
pub(crate) fn commands_of(alloc: Global, script: &Script) -> Result<Vec<Command>, AllocError>
    requires { 0 < length script.now.sections }
    ensures { IfOk result (λ cs. cs.items ≡ made_of script.now.version (slice_index_or script.now.sections 0 [])) }
{
    let mut made = Vec::new(alloc);
    if script.version() == 3 {
        push_front(&mut made)?;
    }
    push_section(&mut made, script.section(0))?;
    Ok(made)
}
