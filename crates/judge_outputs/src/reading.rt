//! Reads what a source gives.
ghost use Rattle.std.specs.Prelude.{◌≡◌, ◌<◌, ◌≤◌, IfOk, Err};
ghost use Rattle.text_ends.specs.Faults.{Rose};
ghost use Rattle.judge_outputs.specs.Reading.{IsReadWhole, IsReadInPart};

use std::alloc::Global;
use text_ends::Source;

/// Why not all bytes of a source were read.
#[derive(Clone, Copy, Debug, PartialEq, Eq)]
pub(crate) enum ReadStop {
    Fault,
    TooLong,
    Memory,
}

// So many bytes are too many.
const TOO_MANY: usize = 1_073_741_824;

// Reads to the end of the source, each read at most 4096 bytes.
pub(crate) fn read_bytes<S: Source>(alloc: Global, src: &mut S) -> Result<Vec<u8>, ReadStop>
    ensures later { S.faults src.old ≤ S.faults src.new }
    ensures fault { result ≡ Err ReadStop.Fault → Rose (S.faults src.old) (S.faults src.new) }
    ensures failed { S.faults src.old < S.faults src.new → result ≡ Err ReadStop.Fault }
    ensures long { result ≡ Err ReadStop.TooLong → IsReadInPart (S.left src.old) (S.left src.new) }
    ensures bytes { IfOk result (λ v. IsReadWhole (S.left src.old) (S.left src.new) v.items) }
{
    let mut bytes = Vec::new(alloc);
    let mut buf = [0u8; 4096];
    'reading: while bytes.len() < TOO_MANY {
        let wanted = (TOO_MANY - bytes.len()).min(buf.len());
        let Ok(count) = src.read(&mut buf[..wanted]) else {
            return Err(ReadStop::Fault);
        };
        if count == 0 {
            return Ok(bytes);
        }
        if bytes.extend_from_slice(&buf[..count]).is_err() {
            return Err(ReadStop::Memory);
        }
    }
    Err(ReadStop::TooLong)
}
