// The texts of a line: what stands before a space or a line feed.
ghost use Rattle.std.specs.Prelude.{◌≡◌, ◌≤◌, ◌+◌, length, take, drop, bytes_eq, Some, None, if◌then◌else◌};
ghost use Rattle.text_script.specs.Split.{begins_with, first_text as first_text_of};

// The text that begins these bytes.
pub(crate) fn first_text(bytes: &[u8]) -> &[u8]
    ensures { result.now ≡ first_text_of bytes.now }
{
    for (at, byte) in bytes.iter().enumerate() {
        if *byte == b' ' || *byte == b'\n' {
            return &bytes[..at];
        }
    }
    bytes
}

// The place behind a byte, where it stands at the place.
#[inline(always)]
pub(crate) fn behind(bytes: &[u8], at: usize, byte: u8) -> Option<usize>
    ensures { result ≡ (if begins_with byte (drop at bytes.now) then Some (at + 1) else None) }
{
    if at < bytes.len() && bytes[at] == byte {
        Some(at + 1)
    } else {
        None
    }
}

// Whether a text stands at a place.
#[inline(always)]
pub(crate) fn stands_at(bytes: &[u8], at: usize, text: &[u8]) -> bool
    requires { at ≤ length bytes.now }
    ensures { result ≡ bytes_eq (take (length text.now) (drop at bytes.now)) text.now }
{
    if bytes.len() - at < text.len() {
        return false;
    }
    for (place, byte) in text.iter().enumerate() {
        if bytes[at + place] != *byte {
            return false;
        }
    }
    true
}
