//! What waits until blocks are marked.
use std::alloc::{AllocError, Global};
use std::mem;

// A thing waits for a block, or was woken: the block, and the next thing of its row, or of those that
// were woken.
#[derive(Clone, Copy)]
struct Waiter {
    address: u32,
    behind: Option<u32>,
}

impl Waiter {
    // One that waits for nothing.
    const NONE: Waiter = Waiter {
        address: 0,
        behind: None,
    };
}

// Which things of a list, by their places there, wait for which blocks, and which were woken. `make`
// takes all the memory.
//
// Things wait in rows. A block has one row, which may be that of others too. No contract says what waits
// here: a thing that is woken too early or not at all costs time alone.
#[derive(Drop)]
pub(crate) struct Waiting {
    // The thing that is looked at.
    looked_at: usize,
    // How many things there are, and as many rows.
    count: usize,
    // The first thing of each row.
    rows: Vec<Option<u32>>,
    // Each thing, once it has waited.
    waiters: Vec<Waiter>,
    // The first of those that were woken.
    woken: Option<u32>,
}

// Makes a list as long as it is to be at least, or as there is room for. Takes no memory.
fn lengthen<T: Copy>(list: &mut Vec<T>, count: usize, item: T) {
    for _ in list.len()..count {
        if list.len() < list.capacity() {
            list.push_reserved(item);
        }
    }
}

// Puts something in a place of a list, and answers what was there.
fn exchange(list: &mut Vec<Option<u32>>, place: usize, item: Option<u32>) -> Option<u32> {
    if place < list.len() {
        mem::replace(&mut list[place], item)
    } else {
        None
    }
}

// The row of a block, of so many. Neighbours in a pool lie in rows far apart.
fn row_of(rows: usize, address: u32) -> usize {
    let spread = u64::from(address).wrapping_mul(0x9E37_79B9_7F4A_7C15) >> 40;
    if rows == 0 { 0 } else { spread as usize % rows }
}

impl Waiting {
    // Nothing waits. There is room for so many things. Fails for want of memory alone.
    pub(crate) fn make(alloc: Global, room: u32) -> Result<Waiting, AllocError> {
        let rows = Vec::with_capacity(alloc, room as usize)?;
        let waiters = Vec::with_capacity(alloc, room as usize)?;
        Ok(Waiting {
            looked_at: 0,
            count: 0,
            rows,
            waiters,
            woken: None,
        })
    }

    // None of so many things waits or is woken.
    pub(crate) fn start(&mut self, count: usize) {
        for row in 0..self.rows.len().min(count) {
            self.rows[row] = None;
        }
        lengthen(&mut self.rows, count, None);
        lengthen(&mut self.waiters, count, Waiter::NONE);
        self.count = self.rows.len().min(count);
        self.woken = None;
    }

    // The thing at this place is looked at.
    pub(crate) fn look_at(&mut self, place: usize) {
        self.looked_at = place;
    }

    // The thing that is looked at waits until this block is marked.
    pub(crate) fn wait_for(&mut self, address: u32) {
        if self.looked_at < self.waiters.len() {
            let row = row_of(self.count, address);
            let behind = exchange(&mut self.rows, row, u32::try_from(self.looked_at).ok());
            self.waiters[self.looked_at] = Waiter { address, behind };
        }
    }

    // Puts a thing that was taken from a row where it belongs once this block is marked: to those that
    // were woken, or back into the row. Answers what was behind it in the row.
    fn sort(&mut self, thing: u32, row: usize, address: u32) -> Option<u32> {
        let place = thing as usize;
        if place >= self.waiters.len() {
            return None;
        }
        let waiter = self.waiters[place];
        self.waiters[place].behind = if waiter.address == address {
            mem::replace(&mut self.woken, Some(thing))
        } else {
            exchange(&mut self.rows, row, Some(thing))
        };
        waiter.behind
    }

    // What waits for this block is woken.
    #[inline(always)]
    pub(crate) fn wake(&mut self, address: u32) {
        if self.count > 0 {
            self.wake_row(address);
        }
    }

    // The same where something may wait.
    #[inline(never)]
    fn wake_row(&mut self, address: u32) {
        let row = row_of(self.count, address);
        let mut next = exchange(&mut self.rows, row, None);
        for _ in 0..self.waiters.len() {
            let Some(thing) = next else {
                return;
            };
            next = self.sort(thing, row, address);
        }
    }

    // Takes a thing that was woken, which is looked at next.
    pub(crate) fn next_woken(&mut self) -> Option<usize> {
        let place = self.woken? as usize;
        self.woken = if place < self.waiters.len() {
            self.waiters[place].behind
        } else {
            None
        };
        self.looked_at = place;
        Some(place)
    }
}
