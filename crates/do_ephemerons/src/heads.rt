//! What the word of a head says to one who looks at ephemerons.
ghost use Rattle.std.specs.Prelude.{◌⊎◌, ℕ, MatchBool, MatchOption};
ghost use Rattle.step_marks.specs.Marking.Marking.{IsMarked, IsUnmarked};
ghost use Rattle.step_ephemerons.specs.Looks.Rounding.{IsMarkedEphemeron};

use heap_words::{Colours, Head, read_head};

// Whether a block is marked, by the word of its head.
pub(crate) fn is_marked(word: u64, colours: Colours) -> bool
    requires block { IsMarked colours word ⊎ IsUnmarked colours word }
    ensures { MatchBool result (IsMarked colours word) (IsMarked colours word → ⊥) }
{
    match read_head(word) {
        Head::Plain { colour, .. } if colour == colours.marked => true,
        Head::Ephe { colour, .. } if colour == colours.marked => true,
        _ => false,
    }
}

// How many keys a marked ephemeron has, by the word of its head.
pub(crate) fn marked_keys(word: u64, colours: Colours) -> Option<u32>
    requires block { IsUnmarked colours word ⊎ ((keys : ℕ) × IsMarkedEphemeron colours word keys) }
    ensures { MatchOption result ((keys : ℕ) → IsMarkedEphemeron colours word keys → ⊥) (λ keys. IsMarkedEphemeron colours word keys) }
{
    match read_head(word) {
        Head::Ephe { keys, colour, .. } if colour == colours.marked => Some(u32::from(keys)),
        _ => None,
    }
}
