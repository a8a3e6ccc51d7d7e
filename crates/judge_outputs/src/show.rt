//! Answers as text.
ghost use Rattle.std.specs.Prelude.{◌≡◌, ◌++◌, ◌∷◌, [], OnOk, IfOk, codes, decimal, flat_map};
ghost use Rattle.model_core.specs.Output.{line};
ghost use Rattle.text_script.specs.Spelling.{command_text};
ghost use Rattle.judge_outputs.specs.Refusal.{beside_text, refused_text};
ghost use Rattle.judge_outputs.specs.Show.{answered_text, entry_text, gave_up_text, legal_text, near_text, none_text, places_text};

use crate::explain::Near;
use itoa::Buffer;
use model_core::command::Command;
use model_core::entry::{Entry, Places};
use model_core::label::Label;
use std::alloc::{AllocError, Global};
use text_script::{Line, print_command};

/// Puts a text at the end.
pub(crate) fn push(text: &mut Vec<u8>, more: &[u8]) -> Result<(), AllocError>
    ensures { OnOk result (text.new.items ≡ text.old.items ++ more.now) }
{
    text.extend_from_slice(more)
}

// Puts a number at the end.
fn push_number(text: &mut Vec<u8>, number: u64) -> Result<(), AllocError>
    ensures { OnOk result (text.new.items ≡ text.old.items ++ decimal number) }
{
    let mut buffer = Buffer::new();
    push(text, buffer.format(number).as_bytes())
}

// Puts a count at the end between two texts.
pub(crate) fn push_count(
    text: &mut Vec<u8>,
    front: &[u8],
    count: u64,
    behind: &[u8],
) -> Result<(), AllocError>
    ensures { OnOk result (text.new.items ≡ text.old.items ++ (front.now ++ decimal count ++ behind.now)) }
{
    push(text, front)?;
    push_number(text, count)?;
    push(text, behind)
}

/// A count between two texts.
pub(crate) fn counted(
    alloc: Global,
    front: &[u8],
    count: u64,
    behind: &[u8],
) -> Result<Vec<u8>, AllocError>
    ensures { IfOk result (λ v. v.items ≡ front.now ++ decimal count ++ behind.now) }
{
    let mut text = Vec::new(alloc);
    push_count(&mut text, front, count, behind)?;
    Ok(text)
}

/// Puts a number at the end between two texts.
pub(crate) fn push_between(
    text: &mut Vec<u8>,
    front: &[u8],
    number: u32,
    behind: &[u8],
) -> Result<(), AllocError>
    ensures { OnOk result (text.new.items ≡ text.old.items ++ (front.now ++ decimal number ++ behind.now)) }
{
    push_count(text, front, u64::from(number), behind)
}

// Puts the line of a command at the end.
fn push_command(text: &mut Vec<u8>, command: &Command) -> Result<(), AllocError>
    ensures { OnOk result (text.new.items ≡ text.old.items ++ line (command_text command.now)) }
{
    let mut row: Line = [0; 64];
    let length = print_command(command, &mut row);
    push(text, &row[..length])
}

// Puts places at the end.
fn push_places(text: &mut Vec<u8>, places: &Places) -> Result<(), AllocError>
    ensures { OnOk result (text.new.items ≡ text.old.items ++ places_text places.now) }
{
    for place in places.items.iter() {
        push_between(text, b" ", *place, b"")?;
    }
    Ok(())
}

// What stands behind the number of the domain in the line of a command.
fn answered(full: bool) -> &'static [u8]
    ensures { result.now ≡ answered_text full }
{
    if full { b", answered full: " } else { b": " }
}

// Puts the line of a queue that a collection adds to at the end.
fn push_queue(text: &mut Vec<u8>, domain: u32, places: &Places) -> Result<(), AllocError>
    ensures { OnOk result (text.new.items ≡ text.old.items ++ entry_text (Entry.Queue domain places.now)) }
{
    push_between(text, b"  it queues the finalise of domain ", domain, b" at")?;
    push_places(text, places)?;
    push(text, b"\n")
}

// Puts the line of an ephemeron that a collection empties at the end.
fn push_wipe(text: &mut Vec<u8>, label: Label, keys: &Places) -> Result<(), AllocError>
    ensures { OnOk result (text.new.items ≡ text.old.items ++ entry_text (Entry.Wipe label keys.now)) }
{
    push(text, b"  it empties the keys")?;
    push_places(text, keys)?;
    push_between(text, b" of ", label.domain, b":")?;
    push_between(text, b"", label.serial, b", and its data\n")
}

// Puts the line of a command of a domain at the end.
fn push_made(
    text: &mut Vec<u8>,
    domain: u32,
    command: &Command,
    full: bool,
) -> Result<(), AllocError>
    ensures { OnOk result (text.new.items ≡ text.old.items ++ entry_text (Entry.Command domain command.now full)) }
{
    push_between(text, b"domain ", domain, answered(full))?;
    push_command(text, command)
}

// Puts the line of a `finalise_last` that a collection queues at the end.
fn push_last(text: &mut Vec<u8>, domain: u32, place: u32) -> Result<(), AllocError>
    ensures { OnOk result (text.new.items ≡ text.old.items ++ entry_text (Entry.Last domain place)) }
{
    push_between(
        text,
        b"  it queues the finalise_last of domain ",
        domain,
        b" at ",
    )?;
    push_between(text, b"", place, b"\n")
}

// Puts the line of an entry at the end.
fn push_entry(text: &mut Vec<u8>, entry: &Entry) -> Result<(), AllocError>
    ensures { OnOk result (text.new.items ≡ text.old.items ++ entry_text entry.now) }
{
    match entry {
        Entry::Command {
            domain,
            command,
            full,
        } => push_made(text, *domain, command, *full),
        Entry::End { domain } => push_between(text, b"domain ", *domain, b" ends\n"),
        Entry::Ran { domain } => { push_between(text, b"domain ", *domain, b" runs a finaliser\n") }
        Entry::Cut => push(text, b"a collection begins\n"),
        Entry::Queue { domain, places } => push_queue(text, *domain, places),
        Entry::Seal => push(text, b"  it turns to keys\n"),
        Entry::Wipe { label, keys } => push_wipe(text, *label, keys),
        Entry::Last { domain, place } => push_last(text, *domain, *place),
        Entry::Collected => push(text, b"  it is complete\n"),
        Entry::Done => push(text, b"the collection ends\n"),
    }
}

/// That a history was found, and its entries, each on a line.
pub(crate) fn legal(alloc: Global, history: &[Entry]) -> Result<Vec<u8>, AllocError>
    ensures { IfOk result (λ v. v.items ≡ legal_text history.now) }
{
    let mut text = Vec::new(alloc);
    push(&mut text, b"legal\n")?;
    for entry in history {
        push_entry(&mut text, entry)?;
    }
    Ok(text)
}

// Puts a legal output that is near at the end.
fn push_near(text: &mut Vec<u8>, near: &Near) -> Result<(), AllocError>
    ensures { OnOk result (text.new.items ≡ text.old.items ++ near_text near.now.line near.now.text.items) }
{
    push_count(
        text,
        b"line ",
        near.line,
        b" is the first that isn't as in this output, which is legal:\n",
    )?;
    push(text, &near.text)
}

// Puts what is told behind a refusal at the end.
fn push_beside(text: &mut Vec<u8>, near: &Option<Near>) -> Result<(), AllocError>
    ensures { OnOk result (text.new.items ≡ text.old.items ++ beside_text near.now) }
{
    match near {
        Some(near) => push_near(text, near),
        None => Ok(()),
    }
}

/// That none was found in so many states, and a legal output that is near.
pub(crate) fn none_found(
    alloc: Global,
    states: u64,
    near: &Option<Near>,
) -> Result<Vec<u8>, AllocError>
    ensures { IfOk result (λ v. v.items ≡ refused_text (none_text states) near.now) }
{
    let mut text = counted(
        alloc,
        b"no history found in ",
        states,
        b" states, which are all; tests alone show that there is none then\n",
    )?;
    push_beside(&mut text, near)?;
    Ok(text)
}

/// That the search was given up after so many states.
pub(crate) fn gave_up(alloc: Global, states: u64) -> Result<Vec<u8>, AllocError>
    ensures { IfOk result (λ v. v.items ≡ gave_up_text states) }
{
    counted(alloc, b"gave up after ", states, b" states\n")
}

/// That the search was given up after so many states, and a legal output that is near.
pub(crate) fn gave_up_near(
    alloc: Global,
    states: u64,
    near: &Option<Near>,
) -> Result<Vec<u8>, AllocError>
    ensures { IfOk result (λ v. v.items ≡ refused_text (gave_up_text states) near.now) }
{
    let mut text = gave_up(alloc, states)?;
    push_beside(&mut text, near)?;
    Ok(text)
}
