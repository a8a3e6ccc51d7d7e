//! What the sources and sinks in memory share.
ghost use Rattle.std.specs.Prelude.{◌≡◌, ◌<◌, ◌≤◌, ◌+◌, ◌-◌, ◌++◌, take, ◌↔◌, [], length, drop, min, IsTrue, Contains, vec_capacity};

// Whether the call with this number is to fail.
pub(crate) fn is_among(fails: &[u32], number: u64) -> bool
    ensures { IsTrue result ↔ Contains fails.now number }
{
    fails.iter().any(|n| u64::from(*n) == number)
}

// Copies what stands from `at` on to the front of the buffer, at most `piece` bytes of it.
pub(crate) fn give(bytes: &[u8], at: usize, piece: usize, buf: &mut [u8]) -> usize
    requires inside { at ≤ length bytes.now }
    requires some { 1 ≤ piece }
    ensures count { result ≡ min (min (length buf.old) piece) (length bytes.now - at) }
    ensures bytes { drop at bytes.now ≡ take result buf.new ++ drop (at + result) bytes.now }
    ensures end { result ≡ 0 → 0 < length buf.new → drop (at + result) bytes.now ≡ [] }
{
    let rest = &bytes[at..];
    let count = buf.len().min(piece).min(rest.len());
    buf[..count].copy_from_slice(&rest[..count]);
    count
}

// Appends, where there is room, without taking memory.
pub(crate) fn append(bytes: &mut Vec<u8>, piece: &[u8])
    requires { length bytes.old.items + length piece.now ≤ vec_capacity bytes.old }
    ensures items { bytes.new.items ≡ bytes.old.items ++ piece.now }
    ensures capacity { vec_capacity bytes.new ≡ vec_capacity bytes.old }
{
    for byte in piece {
        bytes.push_reserved(*byte);
    }
}
