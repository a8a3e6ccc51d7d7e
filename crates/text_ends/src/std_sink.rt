//! Any writer of std as a sink.
ghost use Rattle.std.specs.Prelude.{◌≡◌, ◌≢◌, ◌<◌, ◌≤◌, length, IfOk, IfErr};
ghost use Rattle.std.specs.IoError.{error_kind};
ghost use Rattle.std.specs.Io.{WritesAtMost};
ghost use Rattle.std.specs.Io.KnownBytes.{Keeps, WriteAppends};
ghost use Rattle.text_ends.specs.Faults.{HasCause, RisesAtErr};

use crate::{Failed, Sink};
use std::io::{self, ErrorKind, Write};

/// A writer with a count of its errors; a write that takes nothing of a piece that isn't empty is one of them.
/// A write that a signal interrupts is made again and counts for nothing.
/// Over memory it tells its bytes, over standard output nothing. What the writer inside does is trusted: no clause
/// says when it fails, or which bytes it keeps where it tells none.
#[derive(Drop)]
pub struct StdSink<W> {
    inner: W,
    faults: u64,
}

impl<W: Write> StdSink<W> {
    ghost use Rattle.text_ends.specs.Adapters.{writer_of, write_faults};

    /// The writer, which hasn't failed yet.
    pub fn make(inner: W) -> Self
        ensures writer { writer_of result ≡ inner }
        ensures faults { write_faults result ≡ 0 }
    {
        StdSink { inner, faults: 0 }
    }

    /// Hands on what the writer has gathered, as a [`BufWriter`](std::io::BufWriter) does. `Failed` says that it couldn't.
    pub fn flush(&mut self) -> Result<(), Failed>
        ensures bytes { Keeps (W.contents (writer_of self.old)) (W.contents (writer_of self.new)) }
        ensures cause { HasCause (write_faults self.old) (write_faults self.new) result }
        ensures faults { RisesAtErr (write_faults self.old) (write_faults self.new) result }
    {
        if self.inner.flush().is_err() {
            self.faults = self.faults.saturating_add(1);
            return Err(Failed);
        }
        Ok(())
    }
}

// A write, made again where a signal interrupts it.
fn write_retrying<W: Write>(writer: &mut W, piece: &[u8]) -> io::Result<usize>
    ensures bound { WritesAtMost result piece.now }
    ensures bytes { WriteAppends (W.contents writer.old) (W.contents writer.new) result piece.now }
    ensures retried { IfErr result (λ e. error_kind e ≢ ErrorKind.Interrupted) }
{
    'tries: for _ in 0..u64::MAX {
        match writer.write(piece) {
            Ok(count) => return Ok(count),
            Err(error) => {
                if error.kind() != ErrorKind::Interrupted {
                    return Err(error);
                }
            }
        }
    }
    Err(io::Error::from(ErrorKind::TimedOut))
}

impl<W: Write> Sink for StdSink<W> {
    ghost written = { λ s. W.contents s.inner };

    ghost faults = { λ s. s.faults };

    fn write(&mut self, piece: &[u8]) -> Result<usize, Failed>
        ensures bound { WritesAtMost result piece.now }
        ensures some { 0 < length piece.now → IfOk result (λ n. 1 ≤ n) }
        ensures bytes { WriteAppends (W.contents self.old.inner) (W.contents self.new.inner) result piece.now }
        ensures cause { HasCause self.old.faults self.new.faults result }

        // Beyond the trait's: the count rises at a failure, and nowhere else.
        ensures faults { RisesAtErr self.old.faults self.new.faults result }
    {
        match write_retrying(&mut self.inner, piece) {
            Ok(0) if !piece.is_empty() => {
                self.faults = self.faults.saturating_add(1);
                Err(Failed)
            }
            Ok(count) => Ok(count),
            Err(_) => {
                self.faults = self.faults.saturating_add(1);
                Err(Failed)
            }
        }
    }
}
