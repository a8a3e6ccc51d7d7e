//! The commands by which a domain makes its section.
use model_core::command::Command;
use std::alloc::{AllocError, Global};

// The register of the hidden block, and the one that is used besides.
const HIDDEN: u8 = 15;

const SCRATCH: u8 = 14;

/// How many fields the hidden block has.
pub(crate) const HIDDEN_FIELDS: u16 = 24;

/// How the reply of a command stands in the output.
#[derive(Clone, Copy, PartialEq, Eq)]
pub(crate) enum Printing {
    /// On a line.
    Printed,
    /// Nowhere.
    Silent,
    /// Nowhere, and it is this integer.
    Awaited(i64),
}

/// A command that a domain makes.
#[derive(Clone, Copy)]
pub(crate) struct Turn {
    pub command: Command,
    pub printing: Printing,
    /// So many places on the next command stands.
    pub places: usize,
    /// Where this register holds something, this command and the one behind it aren't made.
    pub unless: Option<u8>,
}

fn printed(command: Command) -> Turn {
    Turn {
        command,
        printing: Printing::Printed,
        places: 1,
        unless: None,
    }
}

fn silent(command: Command) -> Turn {
    Turn {
        printing: Printing::Silent,
        ..printed(command)
    }
}

// A field of the hidden block: from 0 on the flags of the sections, from 8 on their arguments, from 16 on their results.
fn field(first: u16, section: u32) -> u16 {
    first.saturating_add(u16::try_from(section).unwrap_or(0))
}

fn load(dst: u8, index: u16) -> Command {
    Command::Load {
        dst,
        src: HIDDEN,
        index,
    }
}

fn store(index: u16, item: u8) -> Command {
    Command::Store {
        block: HIDDEN,
        index,
        item,
    }
}

fn put(value: i64) -> Command {
    Command::PutInt {
        dst: SCRATCH,
        value,
    }
}

// The load of a section's flag that a domain waits for.
fn awaited(section: u32, until: i64) -> Turn {
    Turn {
        printing: Printing::Awaited(until),
        ..printed(load(SCRATCH, field(0, section)))
    }
}

// The store into the field of the shared block through which the hidden one is handed on.
fn shared(item: u8) -> Command {
    Command::Store {
        block: 0,
        index: 15,
        item,
    }
}

// A spawn: the argument is what the register holds, or 0.
fn add_spawn(turns: &mut Vec<Turn>, section: u32, item: u8) -> Result<(), AllocError> {
    let argument = field(8, section);
    turns.push(Turn {
        unless: Some(item),
        ..silent(put(0))
    })?;
    turns.push(Turn {
        places: 2,
        ..silent(store(argument, SCRATCH))
    })?;
    turns.push(silent(store(argument, item)))?;
    turns.push(silent(put(1)))?;
    turns.push(printed(store(field(0, section), SCRATCH)))?;
    Ok(())
}

// What a command of a section stands for.
fn add_command(turns: &mut Vec<Turn>, d: u32, command: Command) -> Result<(), AllocError> {
    match command {
        Command::Spawn { section, item } => add_spawn(turns, section, item)?,
        Command::Argument { dst } => turns.push(printed(load(dst, field(8, d))))?,
        Command::PutResult { item } => turns.push(printed(store(field(16, d), item)))?,
        Command::Join { dst, section } => {
            turns.push(awaited(section, 2))?;
            turns.push(printed(load(dst, field(16, section))))?;
        }
        _ => turns.push(printed(command))?,
    }
    Ok(())
}

/// What section `d` with these commands makes. One that a spawn names waits for it first, and tells its end last.
pub(crate) fn turns_of(
    alloc: Global,
    d: u32,
    spawned: bool,
    commands: &[Command],
) -> Result<Vec<Turn>, AllocError> {
    let mut turns = Vec::new(alloc);
    if spawned {
        turns.push(awaited(d, 1))?;
    }
    for command in commands {
        add_command(&mut turns, d, *command)?;
    }
    if spawned {
        turns.push(silent(put(2)))?;
        turns.push(silent(store(field(0, d), SCRATCH)))?;
    }
    Ok(turns)
}

/// A command of a domain before any section begins.
#[derive(Clone, Copy)]
pub(crate) struct Early {
    pub domain: usize,
    pub command: Command,
}

/// How so many domains come to the hidden block.
pub(crate) fn prelude(alloc: Global, domains: usize) -> Result<Vec<Early>, AllocError> {
    let mut early = Vec::new(alloc);
    let made = Command::AllocMaj {
        dst: HIDDEN,
        tag: 0,
        fields: HIDDEN_FIELDS,
    };
    add_early(&mut early, 0, made)?;
    add_early(&mut early, 0, shared(HIDDEN))?;
    for domain in 1..domains {
        let taken = Command::Load {
            dst: HIDDEN,
            src: 0,
            index: 15,
        };
        add_early(&mut early, domain, taken)?;
    }
    add_early(&mut early, 0, put(0))?;
    add_early(&mut early, 0, shared(SCRATCH))?;
    add_early(&mut early, 0, Command::Forget { dst: SCRATCH })?;
    Ok(early)
}

fn add_early(early: &mut Vec<Early>, domain: usize, command: Command) -> Result<(), AllocError> {
    early.push(Early { domain, command })?;
    Ok(())
}
