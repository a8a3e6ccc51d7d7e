//! What script and output fix beforehand: the commands and lines of each domain, and all blocks.
use crate::search::command::make;
use crate::search::lines::{Kind, Line, read_output};
use crate::search::list::{copy_of, set_at};
use crate::search::section::{Early, HIDDEN_FIELDS, Turn, prelude, turns_of};
use crate::search::state::{Held, State};
use model_core::command::Command;
use model_core::label::Label;
use model_core::reply::Reply;
use model_core::state::Sizes;
use std::alloc::{AllocError, Global};
use text_script::Script;

// The block that all domains share.
const SHARED: Label = Label {
    domain: 0,
    serial: 0,
};

// The block through which sections pass values.
const HIDDEN: Label = Label {
    domain: 0,
    serial: 1,
};

// More than the greatest count of fields.
const COUNTS: usize = 1024;

/// What kind of block a command makes.
#[derive(Clone, Copy)]
pub(crate) enum Shape {
    Plain,
    Raw,
    Ephemeron,
}

/// A block, made or not.
#[derive(Clone, Copy)]
pub(crate) struct Block {
    pub label: Label,
    pub shape: Shape,
    /// How many fields or keys it has.
    pub count: u16,
    /// Its slots: of a plain or raw block the fields that some command of the script names, of an ephemeron its keys,
    /// and behind them its data.
    pub first: usize,
    pub slots: usize,
}

impl Block {
    /// Where its cells end.
    pub(crate) fn end(&self) -> usize {
        self.first.saturating_add(self.slots)
    }

    /// Where its keys end, and its data stand, if it is an ephemeron.
    pub(crate) fn data_at(&self) -> usize {
        self.first.saturating_add(usize::from(self.count))
    }
}

/// What a domain makes, and what is known of it.
#[derive(Drop)]
pub(crate) struct Trace {
    pub turns: Vec<Turn>,
    /// The number of the first block that it makes.
    pub first_block: usize,
    /// So many of the domain's lines stand up to the last that counts what is kept: of `full_major`, or `full`.
    pub counting: usize,
    /// Whether it has a command that may bring a block back that nothing but a key or a finaliser holds.
    pub brings_back: bool,
}

/// All that is fixed.
#[derive(Drop)]
pub(crate) struct Run {
    pub sizes: Sizes,
    /// What is made before any section begins.
    pub prelude: Vec<Early>,
    pub traces: Vec<Trace>,
    /// The lines that each domain is to print.
    pub lines: Vec<Vec<Line>>,
    /// All blocks, by their numbers: the shared one, and then those of each domain in the order of its allocations.
    pub blocks: Vec<Block>,
    /// The numbers of the ephemerons.
    pub ephemerons: Vec<usize>,
    /// How many indices below each number are named by a command on a field.
    ranks: Vec<usize>,
    output: Vec<u8>,
}

/// What a block is made with by a command, if it makes one.
fn made_by(command: Command) -> Option<(Shape, u16)> {
    match command {
        Command::Alloc { fields, .. } | Command::AllocMaj { fields, .. } => {
            Some((Shape::Plain, fields))
        }
        Command::Raw { fields, .. } => Some((Shape::Raw, fields)),
        Command::Ephe { keys, .. } => Some((Shape::Ephemeron, keys)),
        _ => None,
    }
}

/// Whether a command makes a block.
pub(crate) fn is_allocation(command: Command) -> bool {
    made_by(command).is_some()
}

// The index of a field that a command names.
fn named_index(command: Command) -> Option<u16> {
    match command {
        Command::Load { index, .. } | Command::Store { index, .. } | Command::Cas { index, .. } => {
            Some(index)
        }
        _ => None,
    }
}

// Whether a command may bring a block back that nothing but a key or a finaliser holds.
fn may_bring_back(command: Command) -> bool {
    matches!(
        command,
        Command::GetKey { .. } | Command::GetData { .. } | Command::Finalise { .. }
    )
}

// Whether some command may.
fn bring_back(commands: &[Command]) -> bool {
    let mut any = false;
    for command in commands {
        any = any || may_bring_back(*command);
    }
    any
}

// Mades each index that commands name.
fn note_indices(named: &mut Vec<bool>, commands: &[Command]) {
    for command in commands {
        if let Some(index) = named_index(*command) {
            set_at(named, usize::from(index), true);
        }
    }
}

// How many flags before each place are set.
fn ranks_of(alloc: Global, named: &[bool]) -> Result<Vec<usize>, AllocError> {
    let mut ranks = Vec::new(alloc);
    let mut rank: usize = 0;
    for flag in named {
        ranks.push(rank)?;
        if *flag {
            rank = rank.saturating_add(1);
        }
    }
    ranks.push(rank)?;
    Ok(ranks)
}

// How many lines stand up to the last that counts.
fn count_up_to_last(lines: &[Line]) -> usize {
    let mut counting = 0;
    for (place, line) in lines.iter().enumerate() {
        if matches!(line.kind, Kind::Live | Kind::Full) {
            counting = place.saturating_add(1);
        }
    }
    counting
}

// The commands of a section. One that isn't there has none.
fn section_of(script: &Script, d: usize) -> &[Command] {
    if d < script.sections() {
        script.section(d)
    } else {
        &[]
    }
}

// Whether an index is named in a script of version 3, whatever its commands are.
fn is_of_hidden(script: &Script, index: usize) -> bool {
    script.version() == 3 && index < usize::from(HIDDEN_FIELDS)
}

// Which indices are named.
fn named_in(alloc: Global, script: &Script) -> Result<Vec<bool>, AllocError> {
    let mut named = Vec::new(alloc);
    for index in 0..COUNTS {
        named.push(is_of_hidden(script, index))?;
    }
    for d in 0..script.sections() {
        note_indices(&mut named, script.section(d));
    }
    Ok(named)
}

// What is made before any section of a script begins.
fn prelude_of(alloc: Global, script: &Script) -> Result<Vec<Early>, AllocError> {
    if script.version() == 3 {
        prelude(alloc, script.sections())
    } else {
        Ok(Vec::new(alloc))
    }
}

// Whether a command and the one behind it aren't made.
fn is_left_out(turn: Turn, state: &State, d: usize) -> bool {
    match turn.unless {
        Some(register) => state.register(d, register) != Held::Nothing,
        None => false,
    }
}

impl Run {
    /// What a script and an output fix. `None` where the output has no section for each domain.
    pub(crate) fn read(
        alloc: Global,
        sizes: Sizes,
        script: &Script,
        output: &[u8],
    ) -> Result<Option<Run>, AllocError> {
        let Some(lines) = read_output(alloc, output)? else {
            return Ok(None);
        };
        if lines.len() != script.sections() {
            return Ok(None);
        }
        let mut run = Run {
            sizes,
            prelude: prelude_of(alloc, script)?,
            traces: Vec::new(alloc),
            lines,
            blocks: Vec::new(alloc),
            ephemerons: Vec::new(alloc),
            ranks: ranks_of(alloc, &named_in(alloc, script)?)?,
            output: copy_of(alloc, output)?,
        };
        run.add_block(SHARED, Shape::Plain, 16)?;
        for d in 0..script.sections() {
            run.add_trace(alloc, d, script)?;
        }
        Ok(Some(run))
    }

    fn add_trace(&mut self, alloc: Global, d: usize, script: &Script) -> Result<(), AllocError> {
        let number = u32::try_from(d).unwrap_or(0);
        let commands = section_of(script, d);
        let trace = Trace {
            turns: turns_of(alloc, number, script.is_spawned(number), commands)?,
            first_block: self.blocks.len(),
            counting: self.count_up_to_last(d),
            brings_back: bring_back(commands),
        };
        self.traces.push(trace)?;
        self.add_blocks(number, commands)
    }

    // How many lines of a domain stand up to the last that counts.
    fn count_up_to_last(&self, d: usize) -> usize {
        match self.lines.get(d) {
            Some(lines) => count_up_to_last(lines),
            None => 0,
        }
    }

    fn add_blocks(&mut self, domain: u32, commands: &[Command]) -> Result<(), AllocError> {
        let mut serial: u32 = 0;
        if domain == 0 && !self.prelude.is_empty() {
            serial = 1;
            self.add_block(HIDDEN, Shape::Plain, HIDDEN_FIELDS)?;
        }
        for command in commands {
            if let Some((shape, count)) = made_by(*command) {
                serial = serial.saturating_add(1);
                self.add_block(Label { domain, serial }, shape, count)?;
            }
        }
        Ok(())
    }

    fn add_block(&mut self, label: Label, shape: Shape, count: u16) -> Result<(), AllocError> {
        let slots = match shape {
            Shape::Ephemeron => usize::from(count).saturating_add(1),
            Shape::Plain | Shape::Raw => self.rank(count),
        };
        if matches!(shape, Shape::Ephemeron) {
            self.ephemerons.push(self.blocks.len())?;
        }
        let first = self.count_slots();
        self.blocks.push(Block {
            label,
            shape,
            count,
            first,
            slots,
        })?;
        Ok(())
    }

    // How many slots all blocks have.
    fn count_slots(&self) -> usize {
        self.block(self.blocks.len().saturating_sub(1)).end()
    }

    /// How many indices below this one the script names: so many slots stand before that of a field.
    pub(crate) fn rank(&self, index: u16) -> usize {
        self.ranks.get(usize::from(index)).copied().unwrap_or(0)
    }

    /// The state before the first entry.
    pub(crate) fn opening(&self, alloc: Global) -> Result<State, AllocError> {
        let mut slots = Vec::new(alloc);
        for block in &self.blocks {
            add_slots(&mut slots, *block)?;
        }
        let mut state = State::opening(alloc, self.traces.len(), &slots)?;
        for early in &self.prelude {
            make(self, &mut state, early.domain, early.command)?;
        }
        Ok(state)
    }

    /// The number of the first block that a domain makes.
    pub(crate) fn first_block(&self, d: usize) -> usize {
        match self.traces.get(d) {
            Some(trace) => trace.first_block,
            None => 0,
        }
    }

    pub(crate) fn domains(&self) -> usize {
        self.traces.len()
    }

    /// The block with a number. One that isn't there has no cell.
    pub(crate) fn block(&self, number: usize) -> Block {
        self.blocks.get(number).copied().unwrap_or(Block {
            label: SHARED,
            shape: Shape::Raw,
            count: 0,
            first: 0,
            slots: 0,
        })
    }

    /// What stands at a place of a domain's trace.
    pub(crate) fn turn(&self, d: usize, place: usize) -> Option<Turn> {
        self.traces.get(d)?.turns.get(place).copied()
    }

    /// The place of what a domain makes next.
    pub(crate) fn next_place(&self, state: &State, d: usize) -> usize {
        let made = state.domain_at(d).made;
        match self.turn(d, made) {
            Some(turn) if is_left_out(turn, state, d) => made.saturating_add(2),
            _ => made,
        }
    }

    /// What a domain makes next.
    pub(crate) fn next_turn(&self, state: &State, d: usize) -> Option<Turn> {
        self.turn(d, self.next_place(state, d))
    }

    /// The command that a domain makes next.
    pub(crate) fn next_command(&self, state: &State, d: usize) -> Option<Command> {
        Some(self.next_turn(state, d)?.command)
    }

    /// A line of a domain.
    pub(crate) fn line(&self, d: usize, place: usize) -> Option<Line> {
        self.lines.get(d)?.get(place).copied()
    }

    /// The line that a domain prints next.
    pub(crate) fn next_line(&self, state: &State, d: usize) -> Option<Line> {
        self.line(d, state.domain_at(d).told)
    }

    pub(crate) fn text(&self, line: Line) -> &[u8] {
        self.output.get(line.start..line.end).unwrap_or(&[])
    }

    /// Whether another domain may still count what this one keeps.
    pub(crate) fn is_counted(&self, state: &State, d: usize) -> bool {
        let mut counted = false;
        for (other, trace) in self.traces.iter().enumerate() {
            counted = counted || (other != d && state.domain_at(other).told < trace.counting);
        }
        counted
    }

    /// Whether another domain may bring a block back that nothing but a key or a finaliser holds.
    pub(crate) fn is_brought_back(&self, d: usize) -> bool {
        let mut brought = false;
        for (other, trace) in self.traces.iter().enumerate() {
            brought = brought || (other != d && trace.brings_back);
        }
        brought
    }
}

// The slots of a block as it is made.
fn add_slots(slots: &mut Vec<Held>, block: Block) -> Result<(), AllocError> {
    let held = match block.shape {
        Shape::Ephemeron => Held::Nothing,
        Shape::Plain | Shape::Raw => Held::Int(0),
    };
    for _ in 0..block.slots {
        slots.push(held)?;
    }
    Ok(())
}

/// What a register that holds this shows.
pub(crate) fn shown(run: &Run, held: Held) -> Reply {
    match held {
        Held::Nothing => Reply::Empty,
        Held::Int(value) => Reply::Int(value),
        Held::Block(block) => Reply::Block(run.block(block).label),
    }
}
