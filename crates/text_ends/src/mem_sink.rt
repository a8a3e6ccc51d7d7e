//! A sink in memory that fails at numbered writes, and where its room ends.
ghost use Rattle.std.specs.Prelude.{◌≡◌, ◌<◌, ◌≤◌, ◌-◌, ◌↔◌, ◌⊎◌, length, min, Some, IfOk, Contains};
ghost use Rattle.std.specs.Result.{IsErr};
ghost use Rattle.std.specs.Io.{WritesAtMost};
ghost use Rattle.std.specs.Io.KnownBytes.{WriteAppends};
ghost use Rattle.text_ends.specs.Faults.{HasCause, next_number, RisesAtErr};
ghost use Rattle.text_ends.specs.InMemory.{IsFull, empty_sink};

use crate::pieces::{append, is_among};
use crate::{Failed, Sink};
use std::alloc::{AllocError, Global};
use std::marker::Model;

/// Keeps what is written, at most `piece` bytes a write, in the room that it reserved. It fails at the writes whose
/// numbers, counted from 1, stand in `fails`, and where a piece isn't empty and no room is left.
#[derive(Drop)]
pub struct MemSink {
    bytes: Vec<u8>,
    room: usize,
    piece: usize,
    fails: Vec<u32>,
    calls: u64,
    faults: u64,
}

impl Model for MemSink {
    ghost use Rattle.std.specs.Prelude.{◌≤◌, length, vec_capacity};
    ghost use Rattle.text_ends.specs.InMemory.{SinkState};

    ghost Value = { SinkState };

    ghost view = { λ s. record { written = s.bytes.items; room = s.room; piece = s.piece; fails = s.fails.items; calls = s.calls; faults = s.faults } };

    ghost invariant = { λ s. (length s.bytes.items ≤ s.room) × (s.room ≤ vec_capacity s.bytes) × (1 ≤ s.piece) };
}

impl MemSink {
    /// An empty sink with room for `room` bytes, which are reserved here. `piece` is at least 1.
    pub fn make(
        alloc: Global,
        room: usize,
        piece: usize,
        fails: Vec<u32>,
    ) -> Result<Self, AllocError>
        requires { 1 ≤ piece }
        ensures { IfOk result (λ s. s ≡ empty_sink room piece fails.items) }
    {
        Ok(MemSink {
            bytes: Vec::with_capacity(alloc, room)?,
            room,
            piece,
            fails,
            calls: 0,
            faults: 0,
        })
    }

    /// What was written so far.
    pub fn bytes(&self) -> &[u8]
        ensures { result.now ≡ self.now.written }
    {
        &self.bytes
    }
}

impl Sink for MemSink {
    ghost written = { λ s. Some s.written };

    ghost faults = { λ s. s.faults };

    fn write(&mut self, piece: &[u8]) -> Result<usize, Failed>
        ensures bound { WritesAtMost result piece.now }
        ensures some { 0 < length piece.now → IfOk result (λ n. 1 ≤ n) }
        ensures bytes { WriteAppends (Some self.old.written) (Some self.new.written) result piece.now }
        ensures cause { HasCause self.old.faults self.new.faults result }

        // Beyond the trait's: which writes fail, how much a write takes, and what stays as it was.
        ensures fails { IsErr result ↔ (Contains self.old.fails (next_number self.old.calls) ⊎ IsFull self.old (length piece.now)) }
        ensures takes { IfOk result (λ n. n ≡ min (min (length piece.now) self.old.piece) (self.old.room - length self.old.written)) }
        ensures faults { RisesAtErr self.old.faults self.new.faults result }
        ensures calls { self.new.calls ≡ next_number self.old.calls }
        ensures same { (self.new.room ≡ self.old.room) × (self.new.piece ≡ self.old.piece) × (self.new.fails ≡ self.old.fails) }
    {
        self.calls = self.calls.saturating_add(1);
        let room_left = self.room - self.bytes.len();
        let count = piece.len().min(self.piece).min(room_left);
        if is_among(&self.fails, self.calls) {
            self.faults = self.faults.saturating_add(1);
            return Err(Failed);
        }
        if count == 0 && !piece.is_empty() {
            self.faults = self.faults.saturating_add(1);
            return Err(Failed);
        }
        append(&mut self.bytes, &piece[..count]);
        Ok(count)
    }
}
