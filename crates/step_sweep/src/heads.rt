//! What the word of a head says of its block's colour.
ghost use Rattle.std.specs.Prelude.{◌≡◌, ◌↔◌, true};
ghost use Rattle.step_sweep.specs.Freeing.{IsColoured};

use heap_words::{Head, unpack_head};

/// Whether the word is the head of a block of this colour.
pub fn has_colour(word: u64, wanted: u8) -> bool
    ensures { (result ≡ true) ↔ IsColoured wanted word }
{
    match unpack_head(word) {
        Some(Head::Plain { colour, .. }) => colour == wanted,
        Some(Head::Ephe { colour, .. }) => colour == wanted,
        _ => false,
    }
}
