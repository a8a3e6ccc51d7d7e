//! A text in memory, as a sink.
ghost use Rattle.std.specs.Prelude.{◌≡◌, ◌<◌, ◌≤◌, [], length, Some, vec_capacity, IfOk};
ghost use Rattle.std.specs.Io.{WritesAtMost};
ghost use Rattle.std.specs.Io.KnownBytes.{WriteAppends};
ghost use Rattle.text_ends.specs.Faults.{HasCause};

use std::alloc::{AllocError, Global};
use text_ends::{Failed, Sink};

/// A text whose room was reserved, as a sink. A piece for which no room is left fails.
#[derive(Drop)]
pub(crate) struct Text {
    bytes: Vec<u8>,
    faults: u64,
}

impl Text {
    // An empty text with room for so many bytes.
    pub(crate) fn with_room(alloc: Global, room: usize) -> Result<Text, AllocError>
        ensures { IfOk result (λ t. t.bytes.items ≡ []) }
    {
        Ok(Text {
            bytes: Vec::with_capacity(alloc, room)?,
            faults: 0,
        })
    }

    // What it has so far.
    pub(crate) fn bytes(&self) -> &[u8]
        ensures { result.now ≡ self.now.bytes.items }
    {
        &self.bytes
    }
}

impl Sink for Text {
    ghost written = { λ t. Some t.bytes.items };

    ghost faults = { λ t. t.faults };

    fn write(&mut self, piece: &[u8]) -> Result<usize, Failed> {
        if self.bytes.capacity() - self.bytes.len() < piece.len() {
            self.faults = self.faults.saturating_add(1);
            return Err(Failed);
        }
        if self.bytes.extend_from_slice(piece).is_err() {
            unreachable!()
        }
        Ok(piece.len())
    }
}
