// How a row is played.
use judge_plain::SlowHeap;
use model_core::command::Command;
use model_core::entry::{Entry, Places};
use model_core::label::Label;
use model_core::reply::{Applied, ApplyFault, Reply};
use std::alloc::{AllocError, Global};
use std::process::Abort;
use std::test::Fail;

// One step of a row of domain 0: an entry, and what it answers.
#[derive(Clone, Copy)]
pub(crate) enum Step {
    // A command, with its reply.
    Makes(Command, Reply),
    // An allocation that is answered `full`.
    Fills(Command),
    // A command that isn't allowed, answered `full` or not.
    Refuses(Command, bool),
    Cut,
    Queue(&'static [u32]),
    Seal,
    // The keys of the block with this serial.
    Wipe(u32, &'static [u32]),
    Last(u32),
    Collected,
    Done,
    // The next finaliser, with its reply.
    Ran(Reply),
    End,
    // A step of the collector that isn't allowed.
    NoWipe(u32, &'static [u32]),
    NoLast(u32),
    NoCollected,
}

// A block of domain 0.
pub(crate) const fn block(serial: u32) -> Label {
    Label { domain: 0, serial }
}

fn command(command: Command, full: bool) -> Entry {
    Entry::Command {
        domain: 0,
        command,
        full,
    }
}

fn places(alloc: Global, items: &[u32]) -> Result<Places, AllocError> {
    let items = Vec::from_slice(alloc, items)?;
    Ok(Places::make(items))
}

// The entry that a step names.
fn entry(alloc: Global, step: Step) -> Result<Entry, AllocError> {
    Ok(match step {
        Step::Makes(c, _) => command(c, false),
        Step::Fills(c) => command(c, true),
        Step::Refuses(c, full) => command(c, full),
        Step::Cut => Entry::Cut,
        Step::Queue(items) => Entry::Queue {
            domain: 0,
            places: places(alloc, items)?,
        },
        Step::Seal => Entry::Seal,
        Step::Wipe(serial, keys) | Step::NoWipe(serial, keys) => Entry::Wipe {
            label: block(serial),
            keys: places(alloc, keys)?,
        },
        Step::Last(place) | Step::NoLast(place) => Entry::Last { domain: 0, place },
        Step::Collected | Step::NoCollected => Entry::Collected,
        Step::Done => Entry::Done,
        Step::Ran(_) => Entry::Ran { domain: 0 },
        Step::End => Entry::End { domain: 0 },
    })
}

// What a step answers.
fn answer(step: Step) -> Result<Applied, ApplyFault> {
    match step {
        Step::Makes(_, reply) | Step::Ran(reply) => Ok(Applied::Replied(reply)),
        Step::Fills(_) => Ok(Applied::Replied(Reply::Full)),
        Step::Refuses(..) | Step::NoWipe(..) | Step::NoLast(_) | Step::NoCollected => Err(
            ApplyFault::NotLegal,
        ),
        _ => Ok(Applied::Silent),
    }
}

// Plays a row on a new heap of one domain.
pub(crate) fn play(rt: &impl Abort, alloc: Global, row: &[Step]) -> Result<(), Fail> {
    follow(rt, alloc, SlowHeap::make(alloc, 1, 512, 32768, 6)?, row)
}

// Plays a row on a new heap of one domain that has 22 pools, one more than promotion, the classes and the shared
// block may need.
pub(crate) fn play_small(rt: &impl Abort, alloc: Global, row: &[Step]) -> Result<(), Fail> {
    follow(rt, alloc, SlowHeap::make(alloc, 1, 22, 32768, 6)?, row)
}

// Plays a row on a heap.
fn follow(rt: &impl Abort, alloc: Global, heap: SlowHeap, row: &[Step]) -> Result<(), Fail> {
    let mut heap = heap;
    for (at, step) in row.iter().enumerate() {
        let entry = entry(alloc, *step)?;
        let in_range = heap.is_in_range(&entry);
        assert!(rt; in_range, "step {at}");
        let answered = heap.apply(&entry);
        assert_eq!(rt; answered, answer(*step), "step {at}");
    }
    Ok(())
}
