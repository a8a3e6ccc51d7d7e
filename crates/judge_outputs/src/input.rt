//! The two parts of the input.
ghost use Rattle.std.specs.Prelude.{◌≡◌, ◌≢◌, ◌++◌, ◌∷◌, List, ℕ, IfSome, IfNone};
ghost use Rattle.judge_outputs.specs.Input.{HasNoParts, HasParts, between};

// What stands behind a line feed and the line between the parts.
fn behind_line(bytes: &[u8]) -> Option<&[u8]>
    ensures some { IfSome result (λ rest. bytes.now ≡ (10 ∷ between) ++ rest.now) }
    ensures none { IfNone result ((more : List ℕ) → bytes.now ≢ (10 ∷ between) ++ more) }
{
    bytes.strip_prefix(b"\n---\n")
}

/// What stands before and behind the first line `---`. The first part ends with its line feed.
pub(crate) fn split_input(bytes: &[u8]) -> Option<(&[u8], &[u8])>
    ensures parts { IfSome result (λ p. HasParts bytes.now p.0.now p.1.now) }
    ensures none { IfNone result (HasNoParts bytes.now) }
{
    for at in 0..bytes.len() {
        if let Some(output) = behind_line(&bytes[at..]) {
            return Some((&bytes[..at + 1], output));
        }
    }
    None
}
