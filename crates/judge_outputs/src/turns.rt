//! The schedule of a history's turns, and its text.
ghost use Rattle.std.specs.Prelude.{◌≡◌, ◌++◌, Some, OnOk, IfOk, option_map};
ghost use Rattle.text_script.specs.Schedule.Text.Spelling.{item_text};
ghost use Rattle.model_core.specs.Output.{line};
ghost use Rattle.judge_outputs.specs.Turns.{after_answer, after_begin, after_call, after_end, after_entry, after_own, after_run, after_within, completed as completed_as, schedule_written, turns_in};

use crate::show::{push, push_between};
use model_core::command::Command;
use model_core::entry::Entry;
use model_traces::schedules::Item;
use std::alloc::{AllocError, Global};

/// Where a history stands between its turns.
#[derive(Clone, Copy)]
pub(crate) enum Phase {
    /// No turn is under way.
    Between,
    /// This domain has run a finaliser, and makes the next command.
    Ran(u32),
    /// A collection is under way: whose finalisers ran before it, whether it is complete, and whose `full_major` it answers.
    Collecting {
        ran: Option<u32>,
        complete: bool,
        asked: Option<u32>,
    },
}

/// What an entry leads to, and the item that is over with it.
#[derive(Clone, Copy)]
pub(crate) struct Step {
    pub(crate) phase: Phase,
    pub(crate) item: Option<Item>,
}

// A step with which no item is over.
fn going(phase: Phase) -> Step
    ensures { result ≡ record { phase = phase; item = None } }
{
    Step { phase, item: None }
}

// A step with which an item is over.
fn over(item: Item) -> Step
    ensures { result ≡ record { phase = Phase.Between; item = Some item } }
{
    Step {
        phase: Phase::Between,
        item: Some(item),
    }
}

// What goes on where a domain may: the finalisers that ran before it are its own.
fn own(phase: Phase, domain: u32, step: Step) -> Option<Step>
    ensures { result ≡ after_own phase domain (Some step) }
{
    match phase {
        Phase::Between => Some(step),
        Phase::Ran(other) if other == domain => Some(step),
        _ => None,
    }
}

// A command that isn't `full_major`, or an end.
fn call(phase: Phase, domain: u32) -> Option<Step>
    ensures { result ≡ after_call phase domain }
{
    own(phase, domain, over(Item::Turn(domain)))
}

// A finaliser that a domain runs.
fn run(phase: Phase, domain: u32) -> Option<Step>
    ensures { result ≡ after_run phase domain }
{
    own(phase, domain, going(Phase::Ran(domain)))
}

// A collection begins.
fn begin(phase: Phase) -> Option<Step>
    ensures { result ≡ after_begin phase }
{
    let ran = match phase {
        Phase::Between => None,
        Phase::Ran(domain) => Some(domain),
        Phase::Collecting { .. } => return None,
    };
    Some(going(Phase::Collecting {
        ran,
        complete: false,
        asked: None,
    }))
}

// An entry within a collection.
fn within(phase: Phase) -> Option<Step>
    ensures { result ≡ after_within phase }
{
    match phase {
        Phase::Collecting { .. } => Some(going(phase)),
        _ => None,
    }
}

// A collection is complete.
fn completed(phase: Phase) -> Option<Step>
    ensures { result ≡ completed_as phase }
{
    match phase {
        Phase::Collecting { ran, asked, .. } => Some(going(Phase::Collecting {
            ran,
            complete: true,
            asked,
        })),
        _ => None,
    }
}

// A `full_major` is answered.
fn answer(phase: Phase, domain: u32) -> Option<Step>
    ensures { result ≡ after_answer phase domain }
{
    match phase {
        Phase::Collecting {
            ran: None,
            complete: true,
            asked: None,
        } => Some(going(Phase::Collecting {
            ran: None,
            complete: true,
            asked: Some(domain),
        })),
        Phase::Collecting {
            ran: Some(other),
            complete: true,
            asked: None,
        } if other == domain => Some(going(Phase::Collecting {
            ran: None,
            complete: true,
            asked: Some(domain),
        })),
        _ => None,
    }
}

// A collection ends.
fn end(phase: Phase) -> Option<Step>
    ensures { result ≡ after_end phase }
{
    match phase {
        Phase::Collecting {
            ran: None,
            complete: true,
            asked: Some(domain),
        } => Some(over(Item::Turn(domain))),
        Phase::Collecting {
            ran: None,
            complete: true,
            asked: None,
        } => Some(over(Item::Collect)),
        _ => None,
    }
}

// What an entry leads to. `None`: no schedule makes such a history.
fn step_by(phase: Phase, entry: &Entry) -> Option<Step>
    ensures { result ≡ after_entry phase entry.now }
{
    match entry {
        Entry::Command { full: true, .. } => None,
        Entry::Command {
            domain,
            command: Command::FullMajor,
            ..
        } => answer(phase, *domain),
        Entry::Command { domain, .. } | Entry::End { domain } => call(phase, *domain),
        Entry::Ran { domain } => run(phase, *domain),
        Entry::Cut => begin(phase),
        Entry::Queue { .. } | Entry::Seal | Entry::Wipe { .. } | Entry::Last { .. } => {
            within(phase)
        }
        Entry::Collected => completed(phase),
        Entry::Done => end(phase),
    }
}

/// The turns and complete collections of a history, in order. `None`: a command is answered `full`, a collection isn't
/// complete or answers two `full_major`, or another domain's entry stands between a finaliser and the next command of its domain.
pub(crate) fn gather_turns(
    alloc: Global,
    history: &[Entry],
) -> Result<Option<Vec<Item>>, AllocError>
    ensures { IfOk result (λ o. option_map (λ v. v.items) o ≡ turns_in history.now) }
{
    let mut items = Vec::new(alloc);
    let mut phase = Phase::Between;
    for entry in history {
        let Some(next) = step_by(phase, entry) else {
            return Ok(None);
        };
        phase = next.phase;
        if let Some(item) = next.item {
            items.push(item)?;
        }
    }
    match phase {
        Phase::Between => Ok(Some(items)),
        _ => Ok(None),
    }
}

// Puts the line of an item at the end.
fn push_item(text: &mut Vec<u8>, item: Item) -> Result<(), AllocError>
    ensures { OnOk result (text.new.items ≡ text.old.items ++ line (item_text item)) }
{
    match item {
        Item::Turn(domain) => push_between(text, b"turn ", domain, b"\n"),
        Item::Collect => push(text, b"collect\n"),
    }
}

/// The text of a schedule of these items.
pub(crate) fn turns_text(alloc: Global, items: &[Item]) -> Result<Vec<u8>, AllocError>
    ensures { IfOk result (λ v. v.items ≡ schedule_written items.now) }
{
    let mut text = Vec::new(alloc);
    push(&mut text, b"schedule 1\n")?;
    for item in items {
        push_item(&mut text, *item)?;
    }
    push(&mut text, b"end\n")?;
    Ok(text)
}
