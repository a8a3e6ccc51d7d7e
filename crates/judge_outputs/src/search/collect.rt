//! Collections: the complete one, and those that take no more than a line to come asks for.
use crate::search::command::ephemeron;
use crate::search::lines::{Kind, Line, prints};
use crate::search::list::{copy_of, set_at};
use crate::search::plain::PlainEntry;
use crate::search::reach::{Reach, keys_of, reached, settled, slots_of};
use crate::search::run::{Block, Run, Shape};
use crate::search::state::{Held, List, Registration, State};
use model_core::command::Command;
use model_core::reply::Reply;
use std::alloc::{AllocError, Global};

// So many ways to queue finalisers, or to take a block, are tried in one collection.
const MOST_WAYS: usize = 256;

/// A state that comes next, and the entries that lead to it.
#[derive(Drop)]
pub(crate) struct Next {
    pub state: State,
    pub entries: Vec<PlainEntry>,
}

impl Next {
    pub(crate) fn after(alloc: Global, state: &State) -> Result<Next, AllocError> {
        Ok(Next {
            state: state.copy(alloc)?,
            entries: Vec::new(alloc),
        })
    }

    pub(crate) fn make(&mut self, entry: PlainEntry) -> Result<(), AllocError> {
        self.entries.push(entry)?;
        Ok(())
    }

    // Queues a registration, which stands at a place of the list of all.
    fn queue(&mut self, at: usize, domain: usize, list: List) -> Result<(), AllocError> {
        let place = self.state.count_before(at, domain, list);
        self.state.queue(at)?;
        self.make(match list {
            List::Lasts => PlainEntry::Last { domain, place },
            _ => PlainEntry::Queue { domain, place },
        })
    }

    // Queues the registrations of a list of a domain whose blocks aren't kept, the newest first.
    fn queue_unkept(&mut self, kept: &Reach, d: usize, list: List) -> Result<(), AllocError> {
        for at in (0..self.state.registrations.len()).rev() {
            if self.state.has_at(at, d, list) && !keeps(&self.state, kept, at) {
                self.queue(at, d, list)?;
            }
        }
        Ok(())
    }

    // The same for all domains.
    fn queue_all_unkept(&mut self, kept: &Reach, list: List) -> Result<(), AllocError> {
        for d in 0..self.state.domains() {
            self.queue_unkept(kept, d, list)?;
        }
        Ok(())
    }

    // Empties a key of an ephemeron, and its data with it.
    fn wipe_key(&mut self, number: usize, block: Block, key: usize) -> Result<(), AllocError> {
        self.state
            .write(block.first.saturating_add(key), Held::Nothing);
        self.state.write(block.data_at(), Held::Nothing);
        self.make(PlainEntry::Wipe { block: number, key })
    }

    // Empties the keys of an ephemeron that aren't kept.
    fn wipe(&mut self, run: &Run, kept: &Reach, number: usize) -> Result<(), AllocError> {
        let block = run.block(number);
        for key in 0..usize::from(block.count) {
            let held = self.state.slot(block.first.saturating_add(key));
            if held != Held::Nothing && !kept.holds(held) {
                self.wipe_key(number, block, key)?;
            }
        }
        Ok(())
    }

    // Empties the keys that aren't kept of all ephemerons that are.
    fn wipe_all(&mut self, run: &Run, kept: &Reach) -> Result<(), AllocError> {
        for number in &run.ephemerons {
            if kept.has(*number) {
                self.wipe(run, kept, *number)?;
            }
        }
        Ok(())
    }

    // Empties the keys of what isn't kept, and queues the `finalise_last` of it.
    fn take_unkept(&mut self, run: &Run, kept: &Reach) -> Result<(), AllocError> {
        self.wipe_all(run, kept)?;
        self.queue_all_unkept(kept, List::Lasts)
    }

    /// A complete collection up to where `full_major` is answered. Answers what is left.
    pub(crate) fn complete(&mut self, alloc: Global, run: &Run) -> Result<Reach, AllocError> {
        self.make(PlainEntry::Cut)?;
        let live = reached(alloc, run, &self.state)?;
        self.queue_all_unkept(&live, List::Finals)?;
        self.make(PlainEntry::Seal)?;
        let live = reached(alloc, run, &self.state)?;
        self.take_unkept(run, &live)?;
        self.make(PlainEntry::Collected)?;
        Ok(live)
    }
}

// Whether the block of the registration at a place of the list of all is kept.
fn keeps(state: &State, kept: &Reach, at: usize) -> bool {
    match state.registration(at) {
        Some(entry) => kept.has(entry.block),
        None => true,
    }
}

/// What a finaliser prints as it runs.
pub(crate) fn run_reply(run: &Run, entry: Registration) -> Reply {
    let number = entry.number;
    match entry.register {
        Some(_) => Reply::Fin {
            number,
            label: run.block(entry.block).label,
        },
        None => Reply::Last { number },
    }
}

// Whether a domain's next command is `full_major`.
fn makes_full_major(run: &Run, state: &State, d: usize) -> bool {
    matches!(run.next_command(state, d), Some(Command::FullMajor))
}

// Where the lines of finalisers begin that may stand in a domain's queue now: behind the line of `full_major`, if that
// is next and the domain owes nothing.
fn first_awaited(run: &Run, state: &State, d: usize) -> usize {
    let own = state.domain_at(d);
    match run.line(d, own.told) {
        Some(line) if line.kind == Kind::Live && !own.owes && makes_full_major(run, state, d) => {
            own.told.saturating_add(1)
        }
        _ => own.told,
    }
}

// A line that a finaliser may print that isn't queued yet: so many lines behind those of the queue.
fn awaited(run: &Run, state: &State, d: usize, behind: usize) -> Option<Line> {
    let first = first_awaited(run, state, d);
    let queued = state.count_queued(d);
    run.line(d, first.saturating_add(queued).saturating_add(behind))
}

// Whether a registration prints a line of a domain.
fn prints_at(run: &Run, d: usize, place: usize, entry: Registration) -> bool {
    match run.line(d, place) {
        Some(line) => prints(run.text(line), &run_reply(run, entry)),
        None => false,
    }
}

// The place of the first line to come that the queue of a domain doesn't print in its turn.
fn first_unfit(run: &Run, state: &State, d: usize) -> Option<usize> {
    let mut place = first_awaited(run, state, d);
    for entry in &state.registrations {
        if entry.queued && entry.domain == d {
            if !prints_at(run, d, place, *entry) {
                return Some(place);
            }
            place = place.saturating_add(1);
        }
    }
    None
}

/// Whether the queues of all domains print the lines to come.
pub(crate) fn fits(run: &Run, state: &State) -> bool {
    let mut fit = true;
    for d in 0..state.domains() {
        fit = fit && first_unfit(run, state, d).is_none();
    }
    fit
}

/// Whether a domain waits for a finaliser that isn't queued yet.
pub(crate) fn is_awaiting(run: &Run, state: &State, d: usize) -> bool {
    match awaited(run, state, d, 0) {
        Some(line) => matches!(line.kind, Kind::Fin | Kind::Last),
        None => false,
    }
}

// How many finalisers of `finalise` a domain waits for in a row.
fn count_awaited(run: &Run, state: &State, d: usize) -> usize {
    for behind in 0..MOST_WAYS {
        match awaited(run, state, d, behind) {
            Some(line) if line.kind == Kind::Fin => {}
            _ => return behind,
        }
    }
    MOST_WAYS
}

// The greatest place of the list of all below an end of a `finalise` of a domain that prints this line.
fn place_before(run: &Run, state: &State, d: usize, end: usize, line: Line) -> Option<usize> {
    for at in (0..end.min(state.registrations.len())).rev() {
        if state.has_at(at, d, List::Finals) && prints_line(run, state, at, line) {
            return Some(at);
        }
    }
    None
}

// Whether the registration at a place of the list of all prints a line.
fn prints_line(run: &Run, state: &State, at: usize, line: Line) -> bool {
    match state.registration(at) {
        Some(entry) => prints(run.text(line), &run_reply(run, entry)),
        None => false,
    }
}

// The place of the next finaliser of a domain that is to be queued in this collection.
fn next_place(run: &Run, state: &State, d: usize, end: usize) -> Option<usize> {
    let line = awaited(run, state, d, 0)?;
    place_before(run, state, d, end, line)
}

// Queues so many finalisers of a domain, by the lines to come, and made their blocks. False where there are none.
fn queue_counted(
    run: &Run,
    next: &mut Next,
    d: usize,
    count: usize,
    queued: &mut Vec<usize>,
) -> Result<bool, AllocError> {
    let mut end = usize::MAX;
    for _ in 0..count {
        let Some(at) = next_place(run, &next.state, d, end) else {
            return Ok(false);
        };
        if let Some(entry) = next.state.registration(at) {
            queued.push(entry.block)?;
        }
        next.queue(at, d, List::Finals)?;
        end = at;
    }
    Ok(true)
}

// What registers and queues held before, and what waits still, reach.
fn left(alloc: Global, run: &Run, before: &State, state: &State) -> Result<Reach, AllocError> {
    let mut reach = Reach::new(alloc, run)?;
    reach.add_roots(before)?;
    reach.add_waiting(state)?;
    reach.close(run, before)?;
    Ok(reach)
}

// Whether none of these blocks is reached.
fn are_dead(reach: &Reach, blocks: &[usize]) -> bool {
    let mut dead = true;
    for block in blocks {
        dead = dead && !reach.has(*block);
    }
    dead
}

// A collection that queues so many finalisers of each domain and takes nothing.
fn queue_each(
    alloc: Global,
    run: &Run,
    state: &State,
    counts: &[usize],
) -> Result<Option<Next>, AllocError> {
    let mut next = Next::after(alloc, state)?;
    let mut queued = Vec::new(alloc);
    next.make(PlainEntry::Cut)?;
    for (d, count) in counts.iter().enumerate() {
        if !queue_counted(run, &mut next, d, *count, &mut queued)? {
            return Ok(None);
        }
    }
    let left = left(alloc, run, state, &next.state)?;
    if !are_dead(&left, &queued) {
        return Ok(None);
    }
    next.make(PlainEntry::Seal)?;
    next.make(PlainEntry::Done)?;
    Ok(Some(next))
}

// The next numbers of a counter whose digits are at most these. False behind the last.
fn count_on(counts: &mut Vec<usize>, most: &[usize]) -> bool {
    for (count, most) in counts.iter_mut().zip(most.iter()) {
        if *count < *most {
            *count = count.saturating_add(1);
            return true;
        }
        *count = 0;
    }
    false
}

/// Adds the states behind collections that queue finalisers of `finalise` for the lines to come, and take nothing.
/// False where there are too many.
pub(crate) fn add_queued(
    alloc: Global,
    run: &Run,
    state: &State,
    found: &mut Vec<Next>,
) -> Result<bool, AllocError> {
    let mut most = Vec::new(alloc);
    for d in 0..run.domains() {
        most.push(count_awaited(run, state, d))?;
    }
    let mut counts = vec![in alloc; 0; run.domains()]?;
    for _ in 0..MOST_WAYS {
        if !count_on(&mut counts, &most) {
            return Ok(true);
        }
        if let Some(next) = queue_each(alloc, run, state, &counts)? {
            found.push(next)?;
        }
    }
    Ok(false)
}

// Whether a registration is a `finalise_last` of a domain that waits and prints a line.
fn is_last_for(run: &Run, entry: Registration, d: usize, line: Line) -> bool {
    !entry.queued && entry.domain == d && prints(run.text(line), &run_reply(run, entry))
}

// The blocks whose `finalise_last` of a domain may print a line.
fn lasts_for(
    alloc: Global,
    run: &Run,
    state: &State,
    d: usize,
    line: Line,
) -> Result<Vec<usize>, AllocError> {
    let mut blocks = Vec::new(alloc);
    for entry in &state.registrations {
        if is_last_for(run, *entry, d, line) {
            blocks.push(entry.block)?;
        }
    }
    Ok(blocks)
}

// The blocks that cells hold.
fn blocks_in(alloc: Global, held: &[Held]) -> Result<Vec<usize>, AllocError> {
    let mut blocks = Vec::new(alloc);
    for held in held {
        if let Held::Block(block) = *held {
            blocks.push(block)?;
        }
    }
    Ok(blocks)
}

// The block in a key of the ephemeron in a register.
fn key_at(
    alloc: Global,
    run: &Run,
    state: &State,
    d: usize,
    ephe: u8,
    index: u16,
) -> Result<Vec<usize>, AllocError> {
    let Some(number) = ephemeron(run, state, d, ephe) else {
        return Ok(Vec::new(alloc));
    };
    let block = run.block(number);
    let at = block.first.saturating_add(usize::from(index));
    let end = at.saturating_add(1).min(block.data_at());
    blocks_in(alloc, state.slots(at, end))
}

// The blocks in all keys of the ephemeron in a register.
fn keys_at(
    alloc: Global,
    run: &Run,
    state: &State,
    d: usize,
    ephe: u8,
) -> Result<Vec<usize>, AllocError> {
    match ephemeron(run, state, d, ephe) {
        Some(number) => blocks_in(alloc, keys_of(state, run.block(number))),
        None => Ok(Vec::new(alloc)),
    }
}

// Whether the ephemeron in a register has data.
fn has_data(run: &Run, state: &State, d: usize, ephe: u8) -> bool {
    match ephemeron(run, state, d, ephe) {
        Some(number) => state.slot(run.block(number).data_at()) != Held::Nothing,
        None => false,
    }
}

/// The blocks whose keys may have to be emptied before a domain's next command, so that it answers what the line says
/// or leaves what later lines say.
pub(crate) fn keys_before(
    alloc: Global,
    run: &Run,
    state: &State,
    d: usize,
    command: Command,
) -> Result<Vec<usize>, AllocError> {
    match command {
        Command::CheckKey { ephe, index } | Command::GetKey { ephe, index, .. } => {
            key_at(alloc, run, state, d, ephe, index)
        }
        Command::SetKey { ephe, index, .. } | Command::UnsetKey { ephe, index }
            if has_data(run, state, d, ephe) => { key_at(alloc, run, state, d, ephe, index) }
        Command::CheckData { ephe } | Command::GetData { ephe, .. }
            if has_data(run, state, d, ephe) => { keys_at(alloc, run, state, d, ephe) }
        Command::SetData { ephe, .. } => keys_at(alloc, run, state, d, ephe),
        _ => Ok(Vec::new(alloc)),
    }
}

// Whether a line may be that of a command before which keys are emptied.
fn may_show_empty(run: &Run, line: Line, command: Command) -> bool {
    let text = run.text(line);
    match command {
        Command::CheckKey { .. } | Command::CheckData { .. } => prints(text, &Reply::No),
        Command::GetKey { .. } | Command::GetData { .. } => prints(text, &Reply::Empty),
        _ => prints(text, &Reply::Done),
    }
}

// The blocks that a collection may take for the next line of a domain.
fn wishes(alloc: Global, run: &Run, state: &State, d: usize) -> Result<Vec<usize>, AllocError> {
    let Some(line) = awaited(run, state, d, 0) else {
        return Ok(Vec::new(alloc));
    };
    if line.kind == Kind::Last {
        return lasts_for(alloc, run, state, d, line);
    }
    match run.next_command(state, d) {
        Some(command) if state.count_queued(d) == 0 && may_show_empty(run, line, command) => {
            keys_before(alloc, run, state, d, command)
        }
        _ => Ok(Vec::new(alloc)),
    }
}

// Whether a block is taken.
fn is_out(out: &[bool], number: usize) -> bool {
    out.get(number).copied().unwrap_or(true)
}

// Whether a cell holds a block that is taken.
fn leads_out(held: Held, out: &[bool]) -> bool {
    match held {
        Held::Block(block) => is_out(out, block),
        _ => false,
    }
}

fn any_leads_out(slots: &[Held], out: &[bool]) -> bool {
    let mut any = false;
    for held in slots {
        any = any || leads_out(*held, out);
    }
    any
}

// Whether a plain block leads to one that is taken.
fn must_go(run: &Run, state: &State, number: usize, out: &[bool]) -> bool {
    let block = run.block(number);
    matches!(block.shape, Shape::Plain) && any_leads_out(slots_of(state, block), out)
}

// Takes each plain block that leads to one that is taken. Whether there was one.
fn spread_once(run: &Run, state: &State, out: &mut Vec<bool>) -> bool {
    let mut more = false;
    for number in 0..run.blocks.len() {
        if !is_out(out, number) && must_go(run, state, number, out) {
            set_at(out, number, true);
            more = true;
        }
    }
    more
}

fn spread(run: &Run, state: &State, out: &mut Vec<bool>) {
    for _ in 0..run.blocks.len() {
        if !spread_once(run, state, out) {
            return;
        }
    }
}

// Whether an ephemeron that is kept, with all its keys, has data that is taken.
fn is_torn(run: &Run, state: &State, number: usize, out: &[bool]) -> bool {
    let block = run.block(number);
    let held = state.slot(block.data_at());
    !is_out(out, number) && leads_out(held, out) && !any_leads_out(keys_of(state, block), out)
}

fn first_torn(run: &Run, state: &State, out: &[bool]) -> Option<usize> {
    for number in &run.ephemerons {
        if is_torn(run, state, *number, out) {
            return Some(*number);
        }
    }
    None
}

// A copy in which one more block is taken.
fn with_taken(alloc: Global, out: &[bool], block: usize) -> Result<Vec<bool>, AllocError> {
    let mut out = copy_of(alloc, out)?;
    set_at(&mut out, block, true);
    Ok(out)
}

// Adds what mends a torn ephemeron: that it is taken itself, or one of its keys.
fn add_mended(
    alloc: Global,
    run: &Run,
    state: &State,
    number: usize,
    out: &[bool],
    todo: &mut Vec<Vec<bool>>,
) -> Result<(), AllocError> {
    todo.push(with_taken(alloc, out, number)?)?;
    for block in blocks_in(alloc, keys_of(state, run.block(number)))? {
        todo.push(with_taken(alloc, out, block)?)?;
    }
    Ok(())
}

// Whether nothing is taken that is to be kept.
fn is_apart(out: &[bool], live: &Reach) -> bool {
    let mut apart = true;
    for (number, taken) in out.iter().enumerate() {
        apart = apart && !(*taken && live.has(number));
    }
    apart
}

// All blocks that aren't taken.
fn kept_of(alloc: Global, run: &Run, out: &[bool]) -> Result<Reach, AllocError> {
    let mut kept = Reach::new(alloc, run)?;
    for (number, taken) in out.iter().enumerate() {
        if !*taken {
            kept.add(number)?;
        }
    }
    Ok(kept)
}

// A collection that takes just these.
fn take(alloc: Global, run: &Run, state: &State, out: &[bool]) -> Result<Next, AllocError> {
    let kept = kept_of(alloc, run, out)?;
    let mut next = Next::after(alloc, state)?;
    next.make(PlainEntry::Cut)?;
    next.make(PlainEntry::Seal)?;
    next.take_unkept(run, &kept)?;
    next.make(PlainEntry::Done)?;
    Ok(next)
}

// The blocks of which one must be taken too, where a collection left queues that don't print the lines to come: a
// `finalise_last` of each may print the first line of a domain that its queue doesn't.
fn lacking(alloc: Global, run: &Run, state: &State) -> Result<Vec<usize>, AllocError> {
    for d in 0..state.domains() {
        if let Some(place) = first_unfit(run, state, d) {
            return match run.line(d, place) {
                Some(line) => lasts_for(alloc, run, state, d, line),
                None => Ok(Vec::new(alloc)),
            };
        }
    }
    Ok(Vec::new(alloc))
}

// Adds a collection that takes just these, or where its queues don't print the lines to come, what may mend them.
fn add_fit(
    alloc: Global,
    run: &Run,
    state: &State,
    out: &[bool],
    todo: &mut Vec<Vec<bool>>,
    found: &mut Vec<Next>,
) -> Result<(), AllocError> {
    let next = take(alloc, run, state, out)?;
    if fits(run, &next.state) {
        found.push(next)?;
        return Ok(());
    }
    for block in lacking(alloc, run, &next.state)? {
        todo.push(with_taken(alloc, out, block)?)?;
    }
    Ok(())
}

// Adds the states behind collections that take a block, and no more than they must for the lines to come. False where
// there are too many.
fn add_taken(
    alloc: Global,
    run: &Run,
    state: &State,
    live: &Reach,
    wish: usize,
    found: &mut Vec<Next>,
) -> Result<bool, AllocError> {
    let none = vec![in alloc; false; run.blocks.len()]?;
    let mut todo = Vec::new(alloc);
    todo.push(with_taken(alloc, &none, wish)?)?;
    for _ in 0..MOST_WAYS {
        let Some(mut out) = todo.pop() else {
            return Ok(true);
        };
        spread(run, state, &mut out);
        if !is_apart(&out, live) {
            continue;
        }
        if let Some(number) = first_torn(run, state, &out) {
            add_mended(alloc, run, state, number, &out, &mut todo)?;
        } else {
            add_fit(alloc, run, state, &out, &mut todo, found)?;
        }
    }
    Ok(false)
}

/// Adds the states behind collections that take a block for the next line of a domain, and no more than they must.
/// False where there are too many.
pub(crate) fn add_wished(
    alloc: Global,
    run: &Run,
    state: &State,
    d: usize,
    found: &mut Vec<Next>,
) -> Result<bool, AllocError> {
    let wishes = wishes(alloc, run, state, d)?;
    if wishes.is_empty() {
        return Ok(true);
    }
    let live = settled(alloc, run, state)?;
    let mut whole = true;
    for block in &wishes {
        if !live.has(*block) {
            whole = add_taken(alloc, run, state, &live, *block, found)? && whole;
        }
    }
    Ok(whole)
}
