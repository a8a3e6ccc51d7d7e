//! Which blocks are reached.
use crate::search::list::set_at;
use crate::search::run::{Block, Run, Shape};
use crate::search::state::{Held, State};
use std::alloc::{AllocError, Global};

/// The blocks that are reached, and those of them whose cells weren't followed yet.
#[derive(Drop)]
pub(crate) struct Reach {
    live: Vec<bool>,
    rest: Vec<usize>,
}

impl Reach {
    /// No block.
    pub(crate) fn new(alloc: Global, run: &Run) -> Result<Reach, AllocError> {
        let mut reach = Reach {
            live: Vec::new(alloc),
            rest: Vec::new(alloc),
        };
        for _ in &run.blocks {
            reach.live.push(false)?;
        }
        Ok(reach)
    }

    pub(crate) fn has(&self, block: usize) -> bool {
        self.live.get(block).copied().unwrap_or(false)
    }

    pub(crate) fn holds(&self, held: Held) -> bool {
        match held {
            Held::Block(block) => self.has(block),
            _ => false,
        }
    }

    fn set(&mut self, block: usize) {
        set_at(&mut self.live, block, true);
    }

    /// Adds a block, where it isn't there.
    pub(crate) fn add(&mut self, block: usize) -> Result<(), AllocError> {
        if !self.has(block) {
            self.set(block);
            self.rest.push(block)?;
        }
        Ok(())
    }

    fn add_held(&mut self, held: Held) -> Result<(), AllocError> {
        match held {
            Held::Block(block) => self.add(block),
            _ => Ok(()),
        }
    }

    fn add_all(&mut self, held: &[Held]) -> Result<(), AllocError> {
        for held in held {
            self.add_held(*held)?;
        }
        Ok(())
    }

    // Adds the blocks of the registrations of `finalise` that are queued, or of those that aren't.
    fn add_finals(&mut self, state: &State, queued: bool) -> Result<(), AllocError> {
        for entry in &state.registrations {
            if entry.is_first() && entry.queued == queued {
                self.add(entry.block)?;
            }
        }
        Ok(())
    }

    // Adds the blocks of all registrations of `finalise` of other domains.
    fn add_finals_of_others(&mut self, state: &State, d: usize) -> Result<(), AllocError> {
        for entry in &state.registrations {
            if entry.is_first() && entry.domain != d {
                self.add(entry.block)?;
            }
        }
        Ok(())
    }

    // Adds what the registers of all domains but this one hold.
    fn add_registers_but(&mut self, state: &State, d: usize) -> Result<(), AllocError> {
        for other in 0..state.domains() {
            if other != d {
                self.add_all(state.registers(other))?;
            }
        }
        Ok(())
    }

    /// Adds what registers and queues hold.
    pub(crate) fn add_roots(&mut self, state: &State) -> Result<(), AllocError> {
        self.add_registers_but(state, usize::MAX)?;
        self.add_finals(state, true)
    }

    /// Adds the waiting registrations of `finalise`.
    pub(crate) fn add_waiting(&mut self, state: &State) -> Result<(), AllocError> {
        self.add_finals(state, false)
    }

    // Adds what a block leads to by its fields, and where `weakly` by its keys and its data.
    fn follow(&mut self, state: &State, block: Block, weakly: bool) -> Result<(), AllocError> {
        match block.shape {
            Shape::Plain => self.add_all(slots_of(state, block)),
            Shape::Ephemeron if weakly => self.add_all(slots_of(state, block)),
            _ => Ok(()),
        }
    }

    // Follows all blocks that weren't followed.
    fn follow_rest(&mut self, run: &Run, state: &State, weakly: bool) -> Result<(), AllocError> {
        for _ in 0..run.blocks.len() {
            let Some(number) = self.rest.pop() else {
                return Ok(());
            };
            self.follow(state, run.block(number), weakly)?;
        }
        Ok(())
    }

    // Adds the data of an ephemeron, where it is reached and all its full keys are.
    fn add_data_of(&mut self, run: &Run, state: &State, number: usize) -> Result<(), AllocError> {
        let block = run.block(number);
        if self.has(number) && self.has_keys(keys_of(state, block)) {
            self.add_held(state.slot(block.data_at()))?;
        }
        Ok(())
    }

    fn add_data(&mut self, run: &Run, state: &State) -> Result<(), AllocError> {
        for number in &run.ephemerons {
            self.add_data_of(run, state, *number)?;
        }
        Ok(())
    }

    // Whether all full keys are reached.
    fn has_keys(&self, keys: &[Held]) -> bool {
        let mut all = true;
        for key in keys {
            all = all && (*key == Held::Nothing || self.holds(*key));
        }
        all
    }

    /// Adds all that is reached.
    pub(crate) fn close(&mut self, run: &Run, state: &State) -> Result<(), AllocError> {
        for _ in 0..=run.ephemerons.len() {
            self.follow_rest(run, state, false)?;
            self.add_data(run, state)?;
            if self.rest.is_empty() {
                return Ok(());
            }
        }
        Ok(())
    }

    /// How many blocks are reached.
    pub(crate) fn count(&self) -> u64 {
        let mut count: u64 = 0;
        for live in &self.live {
            if *live {
                count = count.saturating_add(1);
            }
        }
        count
    }

    /// The sum of their words.
    pub(crate) fn count_words(&self, run: &Run) -> u64 {
        let mut words: u64 = 0;
        for (number, block) in run.blocks.iter().enumerate() {
            if self.has(number) {
                words = words.saturating_add(words_of(*block));
            }
        }
        words
    }
}

fn words_of(block: Block) -> u64 {
    let more = match block.shape {
        Shape::Ephemeron => 3,
        Shape::Plain | Shape::Raw => 2,
    };
    u64::from(block.count).saturating_add(more)
}

/// What the cells of a block hold.
pub(crate) fn slots_of(state: &State, block: Block) -> &[Held] {
    state.slots(block.first, block.end())
}

/// The keys of an ephemeron. Of another block they are of no meaning.
pub(crate) fn keys_of(state: &State, block: Block) -> &[Held] {
    state.slots(block.first, block.data_at())
}

/// What registers, queues and the waiting registrations of `finalise` reach.
pub(crate) fn settled(alloc: Global, run: &Run, state: &State) -> Result<Reach, AllocError> {
    let mut reach = Reach::new(alloc, run)?;
    reach.add_roots(state)?;
    reach.add_waiting(state)?;
    reach.close(run, state)?;
    Ok(reach)
}

/// What registers and queues reach.
pub(crate) fn reached(alloc: Global, run: &Run, state: &State) -> Result<Reach, AllocError> {
    let mut reach = Reach::new(alloc, run)?;
    reach.add_roots(state)?;
    reach.close(run, state)?;
    Ok(reach)
}

/// All blocks that the other domains may come to without this one, over fields, keys and data.
pub(crate) fn known_to_others(
    alloc: Global,
    run: &Run,
    state: &State,
    d: usize,
) -> Result<Reach, AllocError> {
    let mut reach = Reach::new(alloc, run)?;
    reach.add_registers_but(state, d)?;
    reach.add_finals_of_others(state, d)?;
    reach.follow_rest(run, state, true)?;
    Ok(reach)
}
