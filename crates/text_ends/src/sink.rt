//! What is written to.
ghost use Rattle.std.specs.Prelude.{ℕ, ◌<◌, ◌≤◌, length, List, IfOk};
ghost use Rattle.std.specs.declared.option.Option.{Option};
ghost use Rattle.std.specs.Io.{WritesAtMost};
ghost use Rattle.std.specs.Io.KnownBytes.{WriteAppends};
ghost use Rattle.text_ends.specs.Faults.{HasCause};

use crate::Failed;

/// A sink of bytes.
pub trait Sink {
    /// The bytes written so far, where the sink tells them.
    ghost written: { Self → Option (List ℕ) };

    /// How often it has failed. It rises at failures alone.
    ghost faults: { Self → ℕ };

    /// Appends bytes from the front of the piece, and answers how many: at least one where the piece isn't empty.
    /// A write that failed appended nothing.
    fn write(&mut self, piece: &[u8]) -> Result<usize, Failed>
        ensures bound { WritesAtMost result piece.now }
        ensures some { 0 < length piece.now → IfOk result (λ n. 1 ≤ n) }
        ensures bytes { WriteAppends (written self.old) (written self.new) result piece.now }
        ensures cause { HasCause (faults self.old) (faults self.new) result };
}
