//! The way that the search has come: what stands in a history, as plain numbers, and the entries that are made of it.
use crate::search::run::Run;
use model_core::command::Command;
use model_core::entry::{Entry, Places};
use model_core::label::Label;
use std::alloc::{AllocError, Global};

/// An entry of a history.
#[derive(Clone, Copy)]
pub(crate) enum PlainEntry {
    /// The command at a place of a domain's trace, and whether it is answered `full`.
    Command {
        domain: usize,
        place: usize,
        full: bool,
    },
    End {
        domain: usize,
    },
    Ran {
        domain: usize,
    },
    Cut,
    Queue {
        domain: usize,
        place: usize,
    },
    Seal,
    /// The block is numbered by the run.
    Wipe {
        block: usize,
        key: usize,
    },
    Last {
        domain: usize,
        place: usize,
    },
    Collected,
    Done,
}

/// An entry, and the place of the one before it.
#[derive(Clone, Copy)]
pub(crate) struct Link {
    pub before: usize,
    pub entry: PlainEntry,
}

// A number that a list of less than 2^32 elements gives.
fn number(place: usize) -> u32 {
    u32::try_from(place).unwrap_or(u32::MAX)
}

// One place.
fn only(alloc: Global, place: usize) -> Result<Places, AllocError> {
    let mut items = Vec::new(alloc);
    items.push(number(place))?;
    Ok(Places::make(items))
}

// The keys that the last entry empties, where that is of this ephemeron.
fn wiped_last(history: &mut Vec<Entry>, ephemeron: Label) -> Option<&mut Places> {
    match history.last_mut()? {
        Entry::Wipe { label, keys } if *label == ephemeron => Some(keys),
        _ => None,
    }
}

// Adds a key that is emptied, to the entry before where that empties keys of the same ephemeron.
fn add_wiped(
    alloc: Global,
    history: &mut Vec<Entry>,
    label: Label,
    key: usize,
) -> Result<(), AllocError> {
    if let Some(keys) = wiped_last(history, label) {
        keys.items.push(number(key))?;
        return Ok(());
    }
    let keys = only(alloc, key)?;
    history.push(Entry::Wipe { label, keys })?;
    Ok(())
}

// The command at a place of a domain's trace.
fn command_at(run: &Run, d: usize, place: usize) -> Command {
    match run.turn(d, place) {
        Some(turn) => turn.command,
        None => Command::Poll,
    }
}

// The entry of a domain.
fn domain_entry(run: &Run, entry: PlainEntry) -> Entry {
    match entry {
        PlainEntry::Command {
            domain,
            place,
            full,
        } => Entry::Command {
            domain: number(domain),
            command: command_at(run, domain, place),
            full,
        },
        PlainEntry::End { domain } => Entry::End {
            domain: number(domain),
        },
        PlainEntry::Ran { domain } => Entry::Ran {
            domain: number(domain),
        },
        PlainEntry::Cut => Entry::Cut,
        PlainEntry::Seal => Entry::Seal,
        PlainEntry::Last { domain, place } => Entry::Last {
            domain: number(domain),
            place: number(place),
        },
        PlainEntry::Collected => Entry::Collected,
        _ => Entry::Done,
    }
}

// Adds an entry.
fn add_entry(
    alloc: Global,
    run: &Run,
    history: &mut Vec<Entry>,
    entry: PlainEntry,
) -> Result<(), AllocError> {
    match entry {
        PlainEntry::Queue { domain, place } => {
            let domain = number(domain);
            let places = only(alloc, place)?;
            history.push(Entry::Queue { domain, places })?;
        }
        PlainEntry::Wipe { block, key } => add_wiped(alloc, history, run.block(block).label, key)?,
        _ => history.push(domain_entry(run, entry))?,
    }
    Ok(())
}

// The entries up to a link, the last one first.
fn entries_before(
    alloc: Global,
    links: &[Link],
    last: usize,
) -> Result<Vec<PlainEntry>, AllocError> {
    let mut entries = Vec::new(alloc);
    let mut at = last;
    for _ in 0..links.len() {
        let Some(link) = links.get(at) else {
            break;
        };
        entries.push(link.entry)?;
        if link.before >= at {
            break;
        }
        at = link.before;
    }
    Ok(entries)
}

/// The entries up to a link. The first link stands for none.
pub(crate) fn history(
    alloc: Global,
    run: &Run,
    links: &[Link],
    last: usize,
) -> Result<Vec<Entry>, AllocError> {
    let mut entries = entries_before(alloc, links, last)?;
    entries.pop();
    let mut history = Vec::new(alloc);
    for early in &run.prelude {
        history.push(Entry::Command {
            domain: number(early.domain),
            command: early.command,
            full: false,
        })?;
    }
    for entry in entries.iter().rev() {
        add_entry(alloc, run, &mut history, *entry)?;
    }
    Ok(history)
}
