//! The next entry of a domain.
use crate::search::collect::{Next, fits, is_awaiting, keys_before, run_reply};
use crate::search::command::{Outcome, make};
use crate::search::lines::{Kind, Line, prints};
use crate::search::plain::PlainEntry;
use crate::search::reach::known_to_others;
use crate::search::run::{Run, Shape, is_allocation};
use crate::search::section::{Printing, Turn};
use crate::search::state::{DomainState, Held, Registration, State};
use model_core::command::Command;
use model_core::reply::Reply;
use std::alloc::{AllocError, Global};

/// What became of a domain's next entry.
#[derive(Clone, Copy, PartialEq, Eq)]
pub(crate) enum Step {
    /// It can't be made now, or prints another line.
    Refused,
    /// It is made, and whatever comes before it may as well come after it.
    Unseen,
    /// It is made.
    Seen,
}

fn seen_where(seen: bool) -> Step {
    if seen { Step::Seen } else { Step::Unseen }
}

// Whether a domain has let go of a block that none of its registers holds now.
fn has_let_go(state: &State, d: usize, held: Held) -> bool {
    matches!(held, Held::Block(_)) && !state.registers(d).contains(&held)
}

// Whether a block is an ephemeron.
fn is_weak(run: &Run, number: usize) -> bool {
    matches!(run.block(number).shape, Shape::Ephemeron)
}

// Whether it matters to other domains when a command used a block: where they know it and it was written, and where a
// block came out of it that may be held weakly else.
fn is_shared_use(
    alloc: Global,
    run: &Run,
    before: &State,
    d: usize,
    block: usize,
    outcome: &Outcome,
) -> Result<bool, AllocError> {
    let brought = matches!(outcome.brought, Held::Block(_));
    if !outcome.wrote && !brought {
        return Ok(false);
    }
    if brought && is_weak(run, block) {
        return Ok(true);
    }
    if brought && !run.is_brought_back(d) {
        return Ok(false);
    }
    Ok(known_to_others(alloc, run, before, d)?.has(block))
}

// Whether it matters when a command was made.
fn is_seen(
    alloc: Global,
    run: &Run,
    before: &State,
    next: &Next,
    d: usize,
    command: Command,
    outcome: &Outcome,
) -> Result<bool, AllocError> {
    let is_write = matches!(outcome.reply, Reply::Done);
    if is_write && !keys_before(alloc, run, before, d, command)?.is_empty() {
        return Ok(true);
    }
    if run.domains() == 1 {
        return Ok(false);
    }
    let counts = is_allocation(command) || has_let_go(&next.state, d, outcome.let_go);
    if counts && run.is_counted(before, d) {
        return Ok(true);
    }
    match outcome.used {
        Some(block) => is_shared_use(alloc, run, before, d, block, outcome),
        None => Ok(false),
    }
}

// A domain's trace has come to a place, and so many more lines are printed.
fn tell(state: &mut State, d: usize, made: usize, lines: usize) {
    let own = state.domain_at(d);
    let owes = state.count_queued(d) != 0;
    state.set_domain(
        d,
        DomainState {
            made,
            told: own.told.saturating_add(lines),
            owes,
            ..own
        },
    );
}

/// The command at a place is made, and so many lines are printed.
pub(crate) fn make_turn(
    next: &mut Next,
    d: usize,
    place: usize,
    turn: Turn,
    lines: usize,
) -> Result<(), AllocError> {
    tell(&mut next.state, d, place.saturating_add(turn.places), lines);
    next.make(PlainEntry::Command {
        domain: d,
        place,
        full: false,
    })
}

/// Whether a reply that isn't printed may be given.
pub(crate) fn is_awaited(turn: Turn, reply: &Reply) -> bool {
    match turn.printing {
        Printing::Awaited(value) => *reply == Reply::Int(value),
        _ => true,
    }
}

// Makes a command whose reply isn't printed.
fn make_silent(
    alloc: Global,
    run: &Run,
    next: &mut Next,
    d: usize,
    turn: Turn,
) -> Result<Step, AllocError> {
    let place = run.next_place(&next.state, d);
    let before = next.state.copy(alloc)?;
    let outcome = make(run, &mut next.state, d, turn.command)?;
    if !is_awaited(turn, &outcome.reply) {
        return Ok(Step::Refused);
    }
    let seen = is_seen(alloc, run, &before, next, d, turn.command, &outcome)?;
    make_turn(next, d, place, turn, 0)?;
    Ok(seen_where(seen || is_awaiting(run, &next.state, d)))
}

// Makes a command that isn't `full_major`.
fn make_command(
    alloc: Global,
    run: &Run,
    next: &mut Next,
    d: usize,
    line: Line,
) -> Result<Step, AllocError> {
    let place = run.next_place(&next.state, d);
    let Some(turn) = run.next_turn(&next.state, d) else {
        return Ok(Step::Refused);
    };
    let command = turn.command;
    if next.state.count_queued(d) != 0 || matches!(command, Command::FullMajor) {
        return Ok(Step::Refused);
    }
    let before = next.state.copy(alloc)?;
    let outcome = make(run, &mut next.state, d, command)?;
    if !prints(run.text(line), &outcome.reply) {
        return Ok(Step::Refused);
    }
    let seen = is_seen(alloc, run, &before, next, d, command, &outcome)?;
    make_turn(next, d, place, turn, 1)?;
    Ok(seen_where(seen))
}

/// A finaliser that was taken out of a domain's queue runs. Answers what its register held.
pub(crate) fn make_run(next: &mut Next, d: usize, entry: Registration) -> Result<Held, AllocError> {
    let let_go = match entry.register {
        Some(register) => next.state.put(d, register, Held::Block(entry.block)),
        None => Held::Nothing,
    };
    let made = next.state.domain_at(d).made;
    tell(&mut next.state, d, made, 1);
    next.make(PlainEntry::Ran { domain: d })?;
    Ok(let_go)
}

// Runs the first finaliser of a queue.
fn run_first(run: &Run, next: &mut Next, d: usize, line: Line) -> Result<Step, AllocError> {
    let Some(entry) = next.state.take_queued(d) else {
        return Ok(Step::Refused);
    };
    if !prints(run.text(line), &run_reply(run, entry)) {
        return Ok(Step::Refused);
    }
    let let_go = make_run(next, d, entry)?;
    let seen = has_let_go(&next.state, d, let_go) && run.is_counted(&next.state, d);
    Ok(seen_where(seen))
}

// Makes `full_major`, in a complete collection.
fn make_full_major(
    alloc: Global,
    run: &Run,
    next: &mut Next,
    d: usize,
    line: Line,
) -> Result<Step, AllocError> {
    let place = run.next_place(&next.state, d);
    let Some(turn) = run.next_turn(&next.state, d) else {
        return Ok(Step::Refused);
    };
    if !matches!(turn.command, Command::FullMajor) {
        return Ok(Step::Refused);
    }
    if next.state.domain_at(d).owes {
        return Ok(Step::Refused);
    }
    let live = next.complete(alloc, run)?;
    let reply = Reply::Live {
        blocks: live.count(),
        words: live.count_words(run),
    };
    if !fits(run, &next.state) || !prints(run.text(line), &reply) {
        return Ok(Step::Refused);
    }
    let seen = run.domains() != 1 || is_awaiting(run, &next.state, d);
    make_turn(next, d, place, turn, 1)?;
    next.make(PlainEntry::Done)?;
    Ok(seen_where(seen))
}

// Whether so many blocks fill so many pools that an allocation may find no room.
fn may_be_full(run: &Run, blocks: u64) -> bool {
    let sizes = &run.sizes;
    let minor = sizes.minor_words / 4096;
    let reserve = sizes
        .domains
        .saturating_mul(minor.saturating_add(sizes.classes));
    let begun = sizes.classes.saturating_mul(sizes.domains);
    let kept = blocks
        .saturating_add(u64::from(reserve))
        .saturating_add(u64::from(begun));
    u64::from(sizes.pools) <= kept
}

// Makes an allocation that is answered `full`, after a complete collection.
fn make_full(alloc: Global, run: &Run, next: &mut Next, d: usize) -> Result<Step, AllocError> {
    match run.next_command(&next.state, d) {
        Some(command) if is_allocation(command) => {}
        _ => return Ok(Step::Refused),
    }
    let live = next.complete(alloc, run)?;
    let is_clear = fits(run, &next.state) && next.state.count_queued(d) == 0;
    if !is_clear || !may_be_full(run, live.count()) {
        return Ok(Step::Refused);
    }
    let place = run.next_place(&next.state, d);
    tell(&mut next.state, d, place.saturating_add(1), 1);
    next.make(PlainEntry::Done)?;
    next.make(PlainEntry::Command {
        domain: d,
        place,
        full: true,
    })?;
    Ok(Step::Seen)
}

/// A domain's trace ends.
pub(crate) fn make_end(next: &mut Next, d: usize) -> Result<(), AllocError> {
    next.state.end(d);
    next.make(PlainEntry::End { domain: d })
}

// Ends a domain's trace.
fn end(run: &Run, next: &mut Next, d: usize) -> Result<Step, AllocError> {
    let more = run.next_command(&next.state, d).is_some();
    if next.state.domain_at(d).ended || more || next.state.count_queued(d) != 0 {
        return Ok(Step::Refused);
    }
    make_end(next, d)?;
    Ok(seen_where(run.is_counted(&next.state, d)))
}

/// Makes the next entry of a domain, where it prints the domain's next line. Where it is refused, `next` is of no more
/// use.
pub(crate) fn make_next(
    alloc: Global,
    run: &Run,
    next: &mut Next,
    d: usize,
) -> Result<Step, AllocError> {
    if let Some(turn) = run.next_turn(&next.state, d) {
        if turn.printing != Printing::Printed && next.state.count_queued(d) == 0 {
            return make_silent(alloc, run, next, d, turn);
        }
    }
    let Some(line) = run.next_line(&next.state, d) else {
        return end(run, next, d);
    };
    match line.kind {
        Kind::Fin | Kind::Last => run_first(run, next, d, line),
        Kind::Live => make_full_major(alloc, run, next, d, line),
        Kind::Full => make_full(alloc, run, next, d),
        Kind::Reply => make_command(alloc, run, next, d, line),
    }
}
