//! The search for the keys that go before each line. A key that is seen again hasn't gone, and one that isn't may go from the last
//! line on that had it. So each count tells how many have gone, and those that must go soonest go first. Nothing here is
//! believed before it is played.
use crate::texts::machine::Gone;
use std::alloc::{AllocError, Global};
use table_text::machine::LineReply;
use table_text::{TableLine, TableText};

/// What the replies tell of a key.
#[derive(Clone, Copy)]
struct Known {
    // The line that made it.
    made: usize,
    // The last line before which it is still there.
    kept: usize,
    // The first line before which it has gone, where one tells that.
    due: Option<usize>,
    // Whether it is bound, if it hasn't gone.
    bound: bool,
    // The line before which it is to go.
    before: Option<usize>,
}

/// A count, and how many bound keys have gone by then.
#[derive(Clone, Copy)]
struct Count {
    line: usize,
    gone: usize,
}

// What was read of the lines and replies so far: keys stand in the order in which they were made.
#[derive(Drop)]
struct Reading {
    keys: Vec<Known>,
    registers: Vec<Option<usize>>,
    slots: Vec<Option<usize>>,
    counts: Vec<Count>,
}

// What a place holds.
fn held_at(places: &[Option<usize>], at: usize) -> Option<usize> {
    places.get(at).copied().flatten()
}

// Has a place hold a key, or nothing.
fn hold(places: &mut [Option<usize>], at: usize, key: Option<usize>) {
    if let Some(place) = places.get_mut(at) {
        *place = key;
    }
}

// The place of a register.
fn place_of(reg: u8) -> usize {
    usize::from(reg).saturating_sub(1)
}

impl Reading {
    fn new(alloc: Global) -> Result<Reading, AllocError> {
        Ok(Reading {
            keys: Vec::new(alloc),
            registers: vec![in alloc; None; 5]?,
            slots: vec![in alloc; None; 16]?,
            counts: Vec::new(alloc),
        })
    }

    // A key is still there before a line.
    fn keep(&mut self, key: Option<usize>, line: usize) {
        if let Some(known) = key.and_then(|key| self.keys.get_mut(key)) {
            known.kept = line;
        }
    }

    // What registers hold is still there before a line.
    fn keep_registers(&mut self, line: usize) {
        for at in 0..self.registers.len() {
            let key = held_at(&self.registers, at);
            self.keep(key, line);
        }
    }

    // A key has gone before a line.
    fn lose(&mut self, key: usize, line: usize) {
        if let Some(known) = self.keys.get_mut(key) {
            known.due = known.due.or(Some(line));
        }
    }

    // The key in a register is bound from now on, or isn't.
    fn bind(&mut self, reg: u8, bound: bool) {
        let key = held_at(&self.registers, place_of(reg));
        if let Some(known) = key.and_then(|key| self.keys.get_mut(key)) {
            known.bound = bound;
        }
    }

    // A line has made a key.
    fn make(&mut self, reg: u8, line: usize) -> Result<(), AllocError> {
        hold(&mut self.registers, place_of(reg), Some(self.keys.len()));
        self.keys.push(Known {
            made: line,
            kept: line,
            due: None,
            bound: false,
            before: None,
        })?;
        Ok(())
    }

    // A slot has given its key back, or none.
    fn look(&mut self, dst: u8, slot: u8, line: usize, found: bool) {
        let key = held_at(&self.slots, usize::from(slot));
        if found {
            self.keep(key, line);
            hold(&mut self.registers, place_of(dst), key);
            return;
        }
        if let Some(key) = key {
            self.lose(key, line);
        }
        hold(&mut self.slots, usize::from(slot), None);
        hold(&mut self.registers, place_of(dst), None);
    }

    // So many bindings were there at a line.
    fn count(&mut self, line: usize, number: u32) -> Result<(), AllocError> {
        let bound = self.keys.iter().filter(|known| known.bound).count();
        self.counts.push(Count {
            line,
            gone: bound.saturating_sub(number as usize),
        })?;
        Ok(())
    }

    // A complete collection has come: of keys that are bound or in a slot those in registers are left.
    fn collect(&mut self, line: usize) {
        for key in 0..self.keys.len() {
            let place = Some(key);
            let bound = self.keys.get(key).is_some_and(|known| known.bound);
            if !self.registers.contains(&place) && (bound || self.slots.contains(&place)) {
                self.lose(key, line);
            }
        }
    }

    // Reads a line and its reply.
    fn read(&mut self, number: usize, line: TableLine, reply: LineReply) -> Result<(), AllocError> {
        self.keep_registers(number);
        match (line, reply) {
            (TableLine::Key { reg }, LineReply::Done) => self.make(reg, number)?,
            (TableLine::Forget { reg }, _) => hold(&mut self.registers, place_of(reg), None),
            (TableLine::Put { reg, .. }, LineReply::Done) => self.bind(reg, true),
            (TableLine::Del { reg }, LineReply::Done) => self.bind(reg, false),
            (TableLine::SetWeak { slot, reg }, LineReply::Done) => {
                let key = held_at(&self.registers, place_of(reg));
                hold(&mut self.slots, usize::from(slot), key);
            }
            (TableLine::GetWeak { dst, slot }, reply) => {
                self.look(dst, slot, number, matches!(reply, LineReply::Yes));
            }
            (TableLine::Count, LineReply::Counted(count)) => self.count(number, count)?,
            (TableLine::FullMajor, _) => self.collect(number),
            _ => {}
        }
        Ok(())
    }

    // The keys in the order in which they must have gone, those that needn't last.
    fn by_due(&self, alloc: Global) -> Result<Vec<usize>, AllocError> {
        let mut order = Vec::new(alloc);
        for (key, known) in self.keys.iter().enumerate() {
            order.push((known.due.unwrap_or(usize::MAX), key))?;
        }
        order.sort()?;
        let mut keys = Vec::new(alloc);
        for (_, key) in order {
            keys.push(key)?;
        }
        Ok(keys)
    }

    // Has a bound key go before a line, or sooner where it must. False where it can't, or goes already.
    fn let_go(&mut self, key: usize, line: usize) -> bool {
        let Some(known) = self.keys.get_mut(key) else {
            return false;
        };
        if !known.bound || known.before.is_some() || line <= known.kept {
            return false;
        }
        known.before = Some(known.due.unwrap_or(line).min(line));
        true
    }

    // Has so many more bound keys go before a line, in this order.
    fn let_go_more(&mut self, order: &[usize], line: usize, more: usize) {
        let mut left = more;
        for key in order {
            if left > 0 && self.let_go(*key, line) {
                left -= 1;
            }
        }
    }

    // Has keys go as the counts tell.
    fn meet_counts(&mut self, alloc: Global) -> Result<(), AllocError> {
        let order = self.by_due(alloc)?;
        let mut gone: usize = 0;
        for at in 0..self.counts.len() {
            if let Some(count) = self.counts.get(at).copied() {
                self.let_go_more(&order, count.line, count.gone.saturating_sub(gone));
                gone = gone.max(count.gone);
            }
        }
        Ok(())
    }

    // The keys that go, in order.
    fn gone(&self, alloc: Global) -> Result<Vec<Gone>, AllocError> {
        let mut order = Vec::new(alloc);
        for known in &self.keys {
            if let Some(before) = known.before.or(known.due) {
                order.push((before, known.made))?;
            }
        }
        order.sort()?;
        let mut gone = Vec::new(alloc);
        for (before, made) in order {
            if let (Ok(key), Ok(before)) = (u32::try_from(made), u32::try_from(before)) {
                gone.push(Gone { key, before })?;
            }
        }
        Ok(gone)
    }
}

/// Which keys go before which lines, so that the machine gives these replies, if it may give them.
pub(crate) fn find_gone(
    alloc: Global,
    text: &TableText,
    replies: &[LineReply],
) -> Result<Vec<Gone>, AllocError> {
    let mut reading = Reading::new(alloc)?;
    for i in 0..text.len() {
        if let Some(reply) = replies.get(i) {
            reading.read(i, text.line(i), *reply)?;
        }
    }
    reading.meet_counts(alloc)?;
    reading.gone(alloc)
}
