//! What a slice of the marking takes its hints from.
ghost use Rattle.std.specs.Prelude.{◌≡◌, ◌≢◌, ◌<◌, true, false, IfNone, IfSome};
ghost use Rattle.gc_mark.specs.Decks.{DeckCounts, Missed, Pushed, Rises, Took};

use crate::darkening::Hint;

/// Hints of blocks that a domain may find grey: those that it has noted itself, and those of the other
/// domains, from which it may take one.
///
/// A deck counts how often it has found a domain without a hint, how many hints it has taken, how many
/// were noted or let go, and how often another domain was asked early: while its own domain may have had
/// a hint. No count falls, and one that has come to the last number stands still.
pub trait Deck {
    /// The number of its domain, how many domains there are, and the counts.
    ghost counts: { Self → DeckCounts };

    /// Notes a hint, or lets it go.
    fn push(&mut self, hint: Hint)
        ensures pushed { Pushed (counts self.old) (counts self.new) };

    /// Takes a hint of the domain's own.
    fn own(&mut self) -> Option<Hint>
        ensures took { IfSome result (λ _. Took false (counts self.old) (counts self.new)) }
        ensures missed { IfNone result (Missed (counts self.old).number true (counts self.old) (counts self.new)) }
        ensures own_first { (counts self.new).early ≡ (counts self.old).early };

    /// Takes a hint of another domain. It counts as early unless the domain has found none of its own since
    /// it last noted or took one.
    fn steal(&mut self, from: u32) -> Option<Hint>
        requires other { from ≢ (counts self.old).number }
        requires inside { from < (counts self.old).domains }
        ensures took { IfSome result (λ _. Took (counts self.old).is_dry (counts self.old) (counts self.new)) }
        ensures missed { IfNone result (Missed from (counts self.old).is_dry (counts self.old) (counts self.new)) }
        ensures in_turn { (counts self.old).is_dry ≡ true → (counts self.new).early ≡ (counts self.old).early }
        ensures early { (counts self.old).is_dry ≡ false → Rises 1 (counts self.old).early (counts self.new).early };
}
