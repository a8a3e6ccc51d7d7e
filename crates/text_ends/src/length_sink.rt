//! A sink that keeps only how much was written.
ghost use Rattle.std.specs.Prelude.{◌≡◌, ◌<◌, ◌≤◌, ◌+◌, ◌-◌, ◌^◌, length, min, None, IfOk, IsOk};
ghost use Rattle.std.specs.Io.{WritesAtMost};
ghost use Rattle.std.specs.Io.KnownBytes.{WriteAppends};
ghost use Rattle.text_ends.specs.Faults.{HasCause};

use crate::{Failed, Sink};
use std::marker::Model;

/// Takes everything, never fails, and keeps only how many bytes there were.
#[derive(Drop)]
pub struct LengthSink {
    count: u64,
}

impl Model for LengthSink {
    ghost use Rattle.std.specs.Prelude.{ℕ};

    ghost Value = { ℕ };

    ghost view = { λ s. s.count };
}

impl LengthSink {
    /// A sink to which nothing was written yet.
    pub fn make() -> Self
        ensures { result ≡ 0 }
    {
        LengthSink { count: 0 }
    }

    /// The number of bytes written so far, or 18,446,744,073,709,551,615 where there were more.
    pub fn length(&self) -> u64
        ensures { result ≡ self.now }
    {
        self.count
    }
}

impl Sink for LengthSink {
    ghost written = { λ _. None };

    ghost faults = { λ _. 0 };

    fn write(&mut self, piece: &[u8]) -> Result<usize, Failed>
        ensures bound { WritesAtMost result piece.now }
        ensures some { 0 < length piece.now → IfOk result (λ n. 1 ≤ n) }
        ensures bytes { WriteAppends None None result piece.now }
        ensures cause { HasCause 0 0 result }

        // Beyond the trait's: it never fails, takes all, and counts.
        ensures sure { IsOk result }
        ensures all { IfOk result (λ n. n ≡ length piece.now) }
        ensures count { self.new ≡ min (self.old + length piece.now) (2 ^ 64 - 1) }
    {
        self.count = self.count.saturating_add(piece.len() as u64);
        Ok(piece.len())
    }
}
