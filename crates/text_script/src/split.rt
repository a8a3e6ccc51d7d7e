//! A text split at the first of a mark.
ghost use Rattle.std.specs.Prelude.{◌≡◌, ◌<◌, length, IfSome, option_map};
ghost use Rattle.text_script.specs.Split.{split_at_mark};

/// What stands before the first mark, and what stands after it. None exactly where there is no such byte.
pub fn split_once(bytes: &[u8], mark: u8) -> Option<(&[u8], &[u8])>
    ensures value { option_map (λ p. (p.0.now, p.1.now)) result ≡ split_at_mark mark bytes.now }
    ensures shorter { IfSome result (λ p. length p.1.now < length bytes.now) }
{
    for (at, byte) in bytes.iter().enumerate() {
        if *byte == mark {
            return Some((&bytes[..at], &bytes[at + 1..]));
        }
    }
    None
}
