//! A state of the search: what of the state of a heap its further lines may still show.
use crate::search::list::{copy_of, set_at};
use std::alloc::{AllocError, Global};

/// How many registers a domain has.
const REGISTERS: usize = 16;

/// What a register, a field, a key or the data of an ephemeron holds. Blocks are numbered by the run.
#[derive(Clone, Copy, PartialEq, Eq)]
pub(crate) enum Held {
    Nothing,
    Int(i64),
    Block(usize),
}

/// A registration of `finalise`, with the register that its block comes to, or of `finalise_last`, with none.
#[derive(Clone, Copy)]
pub(crate) struct Registration {
    pub domain: usize,
    pub number: u32,
    pub block: usize,
    pub register: Option<u8>,
    /// Whether it stands in the queue of its domain.
    pub queued: bool,
}

/// The lists of a domain: of `finalise`, of `finalise_last`, and its queue.
#[derive(Clone, Copy)]
pub(crate) enum List {
    Finals,
    Lasts,
    Queue,
}

/// How far a domain has come.
#[derive(Clone, Copy)]
pub(crate) struct DomainState {
    /// How many of its commands were made, and how many of its lines were printed.
    pub made: usize,
    pub told: usize,
    /// How many blocks it has made.
    pub serial: usize,
    pub ended: bool,
    /// Whether its last registration left finalisers in its queue.
    pub owes: bool,
}

/// A state of the search.
#[derive(Drop)]
pub(crate) struct State {
    domains: Vec<DomainState>,
    /// The registrations of each domain that wait, the oldest first, and those in its queue, the first to run first.
    pub registrations: Vec<Registration>,
    /// What registers hold, 16 for each domain, and behind them what the fields, keys and data of all blocks hold, also of
    /// those that aren't made yet.
    cells: Vec<Held>,
}

/// A state as numbers, which no other state of the same run has.
pub(crate) type Key = Vec<u64>;

fn add_held(held: Held, key: &mut Key) -> Result<(), AllocError> {
    let (kind, number) = match held {
        Held::Nothing => (0, 0),
        Held::Int(value) => (1, value.cast_unsigned()),
        Held::Block(block) => (2, block as u64),
    };
    key.push(kind)?;
    key.push(number)?;
    Ok(())
}

fn add_domain_numbers(own: DomainState, key: &mut Key) -> Result<(), AllocError> {
    let numbers = [
        own.made as u64,
        own.told as u64,
        u64::from(own.ended),
        u64::from(own.owes),
    ];
    key.extend_from_slice(&numbers)
}

fn add_registration(registration: Registration, key: &mut Key) -> Result<(), AllocError> {
    let numbers = [
        registration.domain as u64,
        u64::from(registration.number),
        registration.block as u64,
        u64::from(registration.register.unwrap_or(u8::MAX)),
        u64::from(registration.queued),
    ];
    key.extend_from_slice(&numbers)
}

// The place of a register among the cells.
fn register_at(d: usize, r: u8) -> usize {
    d.saturating_mul(REGISTERS).saturating_add(usize::from(r))
}

impl State {
    /// The state before the first registration of so many domains, over these cells of blocks.
    pub(crate) fn opening(
        alloc: Global,
        domains: usize,
        blocks: &[Held],
    ) -> Result<State, AllocError> {
        let mut state = State {
            domains: Vec::new(alloc),
            registrations: Vec::new(alloc),
            cells: Vec::new(alloc),
        };
        for _ in 0..domains {
            state.add_domain()?;
        }
        state.cells.extend_from_slice(blocks)?;
        Ok(state)
    }

    // A domain before its first registration. Its register 0 holds the shared block.
    fn add_domain(&mut self) -> Result<(), AllocError> {
        self.domains.push(DomainState {
            made: 0,
            told: 0,
            serial: 0,
            ended: false,
            owes: false,
        })?;
        self.cells.push(Held::Block(0))?;
        for _ in 1..REGISTERS {
            self.cells.push(Held::Nothing)?;
        }
        Ok(())
    }

    pub(crate) fn copy(&self, alloc: Global) -> Result<State, AllocError> {
        Ok(State {
            domains: copy_of(alloc, &self.domains)?,
            registrations: copy_of(alloc, &self.registrations)?,
            cells: copy_of(alloc, &self.cells)?,
        })
    }

    pub(crate) fn key(&self, alloc: Global) -> Result<Key, AllocError> {
        let mut key = Vec::new(alloc);
        self.add_domains(&mut key)?;
        self.add_registrations(&mut key)?;
        for held in &self.cells {
            add_held(*held, &mut key)?;
        }
        Ok(key)
    }

    fn add_domains(&self, key: &mut Key) -> Result<(), AllocError> {
        for own in &self.domains {
            add_domain_numbers(*own, key)?;
        }
        Ok(())
    }

    // Adds the registrations of each domain: the order of those of different domains doesn't matter.
    fn add_registrations(&self, key: &mut Key) -> Result<(), AllocError> {
        for d in 0..self.domains.len() {
            self.add_list(d, List::Finals, key)?;
            self.add_list(d, List::Lasts, key)?;
            self.add_list(d, List::Queue, key)?;
        }
        Ok(())
    }

    fn add_list(&self, d: usize, list: List, key: &mut Key) -> Result<(), AllocError> {
        for registration in &self.registrations {
            if registration.stands_in(d, list) {
                add_registration(*registration, key)?;
            }
        }
        Ok(())
    }

    /// How many domains there are.
    pub(crate) fn domains(&self) -> usize {
        self.domains.len()
    }

    /// How far a domain has come. One that isn't there has ended.
    pub(crate) fn domain_at(&self, d: usize) -> DomainState {
        self.domains.get(d).copied().unwrap_or(DomainState {
            made: 0,
            told: 0,
            serial: 0,
            ended: true,
            owes: false,
        })
    }

    pub(crate) fn set_domain(&mut self, d: usize, own: DomainState) {
        set_at(&mut self.domains, d, own);
    }

    fn cell(&self, at: usize) -> Held {
        self.cells.get(at).copied().unwrap_or(Held::Nothing)
    }

    // Writes a cell, and answers what it held.
    fn set_cell(&mut self, at: usize, held: Held) -> Held {
        let before = self.cell(at);
        set_at(&mut self.cells, at, held);
        before
    }

    // Where the cells of blocks begin.
    fn first_slot(&self) -> usize {
        self.domains.len().saturating_mul(REGISTERS)
    }

    /// What a register of a domain holds.
    pub(crate) fn register(&self, d: usize, r: u8) -> Held {
        self.cell(register_at(d, r))
    }

    /// Puts something into a register, and answers what it held.
    pub(crate) fn put(&mut self, d: usize, r: u8, held: Held) -> Held {
        self.set_cell(register_at(d, r), held)
    }

    /// The registers of a domain.
    pub(crate) fn registers(&self, d: usize) -> &[Held] {
        let first = register_at(d, 0);
        let end = first.saturating_add(REGISTERS);
        self.cells.get(first..end).unwrap_or(&[])
    }

    /// What a cell of a block holds.
    pub(crate) fn slot(&self, at: usize) -> Held {
        self.cell(self.first_slot().saturating_add(at))
    }

    /// Writes a cell of a block, and answers what it held.
    pub(crate) fn write(&mut self, at: usize, held: Held) -> Held {
        self.set_cell(self.first_slot().saturating_add(at), held)
    }

    /// Some cells of blocks.
    pub(crate) fn slots(&self, first: usize, end: usize) -> &[Held] {
        let before = self.first_slot();
        let first = before.saturating_add(first);
        let end = before.saturating_add(end);
        self.cells.get(first..end).unwrap_or(&[])
    }

    /// The registration at a place of the list of all.
    pub(crate) fn registration(&self, at: usize) -> Option<Registration> {
        self.registrations.get(at).copied()
    }

    /// How many registrations of a list of a domain stand before a place of the list of all.
    pub(crate) fn count_before(&self, at: usize, d: usize, list: List) -> usize {
        let mut count: usize = 0;
        for (place, registration) in self.registrations.iter().enumerate() {
            if place < at && registration.stands_in(d, list) {
                count = count.saturating_add(1);
            }
        }
        count
    }

    /// How many finalisers wait in a domain's queue.
    pub(crate) fn count_queued(&self, d: usize) -> usize {
        self.count_before(self.registrations.len(), d, List::Queue)
    }

    /// Whether a registration of a list of a domain stands at a place of the list of all.
    pub(crate) fn has_at(&self, at: usize, d: usize, list: List) -> bool {
        match self.registration(at) {
            Some(registration) => registration.stands_in(d, list),
            None => false,
        }
    }

    // Takes out the registration at a place.
    fn take_registration(&mut self, at: usize) -> Option<Registration> {
        if at < self.registrations.len() {
            Some(self.registrations.remove(at))
        } else {
            None
        }
    }

    /// Adds a registration behind all.
    pub(crate) fn add(&mut self, registration: Registration) -> Result<(), AllocError> {
        self.registrations.push(registration)?;
        Ok(())
    }

    /// Queues the registration at a place of the list of all.
    pub(crate) fn queue(&mut self, at: usize) -> Result<(), AllocError> {
        if let Some(registration) = self.take_registration(at) {
            self.registrations.push(Registration {
                queued: true,
                ..registration
            })?;
        }
        Ok(())
    }

    /// Takes the first finaliser out of a domain's queue.
    pub(crate) fn take_queued(&mut self, d: usize) -> Option<Registration> {
        for at in 0..self.registrations.len() {
            if self.has_at(at, d, List::Queue) {
                return self.take_registration(at);
            }
        }
        None
    }

    /// The end of a domain's trace.
    pub(crate) fn end(&mut self, d: usize) {
        let own = self.domain_at(d);
        self.set_domain(d, DomainState { ended: true, ..own });
        self.registrations
            .retain(|registration| registration.domain != d);
        for r in 0..16 {
            self.put(d, r, Held::Nothing);
        }
    }
}

impl Registration {
    /// Whether it is one of `finalise`.
    pub(crate) fn is_first(&self) -> bool {
        self.register.is_some()
    }

    // Whether it stands in a list of a domain.
    fn stands_in(&self, d: usize, list: List) -> bool {
        let in_list = match list {
            List::Finals => !self.queued && self.is_first(),
            List::Lasts => !self.queued && !self.is_first(),
            List::Queue => self.queued,
        };
        in_list && self.domain == d
    }
}
