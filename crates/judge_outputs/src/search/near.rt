//! A legal output near one that no history makes: the run that has come furthest, brought to its end.
use crate::search::collect::{Next, run_reply};
use crate::search::command::make;
use crate::search::plain::PlainEntry;
use crate::search::run::Run;
use crate::search::section::{Printing, Turn};
use crate::search::state::State;
use crate::search::step::{is_awaited, make_end, make_run, make_turn};
use model_core::command::Command;
use model_core::reply::Reply;
use std::alloc::{AllocError, Global};
use text_script::{print_heading, print_reply};

// What has been printed for each domain behind its heading.
type Texts = Vec<Vec<u8>>;

/// How many lines the domains have printed.
pub(crate) fn count_told(state: &State) -> usize {
    let mut told: usize = 0;
    for d in 0..state.domains() {
        told = told.saturating_add(state.domain_at(d).told);
    }
    told
}

// The lines that a domain has printed.
fn told_text(alloc: Global, run: &Run, state: &State, d: usize) -> Result<Vec<u8>, AllocError> {
    let mut text = Vec::new(alloc);
    for place in 0..state.domain_at(d).told {
        if let Some(line) = run.line(d, place) {
            text.extend_from_slice(run.text(line))?;
        }
    }
    Ok(text)
}

// The lines that all domains have printed.
fn told_texts(alloc: Global, run: &Run, state: &State) -> Result<Texts, AllocError> {
    let mut texts = Vec::new(alloc);
    for d in 0..state.domains() {
        texts.push(told_text(alloc, run, state, d)?)?;
    }
    Ok(texts)
}

// Adds the line of a reply of a domain.
fn print(texts: &mut Texts, d: usize, reply: &Reply) -> Result<(), AllocError> {
    let mut out = [0; 64];
    let length = print_reply(reply, &mut out);
    if let Some(text) = texts.get_mut(d) {
        text.extend_from_slice(out.get(..length).unwrap_or(&[]))?;
    }
    Ok(())
}

// Runs the first finaliser of a domain's queue.
fn run_first(run: &Run, next: &mut Next, d: usize, texts: &mut Texts) -> Result<(), AllocError> {
    if let Some(entry) = next.state.take_queued(d) {
        print(texts, d, &run_reply(run, entry))?;
        make_run(next, d, entry)?;
    }
    Ok(())
}

// Makes a command, whatever it answers.
fn made(
    alloc: Global,
    run: &Run,
    next: &mut Next,
    d: usize,
    command: Command,
) -> Result<Reply, AllocError> {
    if !matches!(command, Command::FullMajor) {
        return Ok(make(run, &mut next.state, d, command)?.reply);
    }
    let live = next.complete(alloc, run)?;
    Ok(Reply::Live {
        blocks: live.count(),
        words: live.count_words(run),
    })
}

// Makes what a domain makes next. False where it waits for another domain.
fn make_next(
    alloc: Global,
    run: &Run,
    next: &mut Next,
    d: usize,
    turn: Turn,
    texts: &mut Texts,
) -> Result<bool, AllocError> {
    let place = run.next_place(&next.state, d);
    let before = next.state.copy(alloc)?;
    let reply = made(alloc, run, next, d, turn.command)?;
    if !is_awaited(turn, &reply) {
        next.state = before;
        return Ok(false);
    }
    if turn.printing == Printing::Printed {
        print(texts, d, &reply)?;
    }
    make_turn(next, d, place, turn, 1)?;
    if matches!(turn.command, Command::FullMajor) {
        next.make(PlainEntry::Done)?;
    }
    Ok(true)
}

// One turn of a domain. False where it has ended, or waits for another one.
fn go_on(
    alloc: Global,
    run: &Run,
    next: &mut Next,
    d: usize,
    texts: &mut Texts,
) -> Result<bool, AllocError> {
    if next.state.domain_at(d).ended {
        return Ok(false);
    }
    if next.state.count_queued(d) != 0 {
        run_first(run, next, d, texts)?;
        return Ok(true);
    }
    if let Some(turn) = run.next_turn(&next.state, d) {
        return make_next(alloc, run, next, d, turn, texts);
    }
    make_end(next, d)?;
    Ok(true)
}

// Has a domain take turns as long as it can. False where it can take none.
fn go_far(
    alloc: Global,
    run: &Run,
    next: &mut Next,
    d: usize,
    texts: &mut Texts,
) -> Result<bool, AllocError> {
    let mut moved = false;
    for _ in 0..u32::MAX {
        if !go_on(alloc, run, next, d, texts)? {
            break;
        }
        moved = true;
    }
    Ok(moved)
}

// Has each domain do so. False where none can take a turn.
fn round(alloc: Global, run: &Run, next: &mut Next, texts: &mut Texts) -> Result<bool, AllocError> {
    let mut moved = false;
    for d in 0..run.domains() {
        moved = go_far(alloc, run, next, d, texts)? || moved;
    }
    Ok(moved)
}

// The output of what the domains have printed.
fn joined(alloc: Global, texts: &Texts) -> Result<Vec<u8>, AllocError> {
    let mut output = Vec::new(alloc);
    for (d, text) in texts.iter().enumerate() {
        let mut out = [0; 64];
        let length = print_heading(u32::try_from(d).unwrap_or(0), &mut out);
        output.extend_from_slice(out.get(..length).unwrap_or(&[]))?;
        output.extend_from_slice(text)?;
    }
    Ok(output)
}

/// Brings a run to its end, whatever it prints, and answers the output.
pub(crate) fn finish(alloc: Global, run: &Run, next: &mut Next) -> Result<Vec<u8>, AllocError> {
    let mut texts = told_texts(alloc, run, &next.state)?;
    // Each round but the last ends a section that others wait for, or goes up to where it waits itself.
    for _ in 0..u32::MAX {
        if !round(alloc, run, next, &mut texts)? {
            break;
        }
    }
    joined(alloc, &texts)
}
