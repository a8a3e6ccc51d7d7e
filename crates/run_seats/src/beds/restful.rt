//! What rests.

/// A thing that others may take further while it rests.
pub trait Restful {
    /// Whether the second is the first, maybe further on.
    ghost follows: { Self → Self → Type 0 };

    /// Takes it further, as far as it goes at once. Answers whether it went on.
    fn attend(&mut self) -> bool
        ensures follows { follows self.old self.new };

    /// Each follows itself.
    ghost follows_itself: { (t : Self) → follows t t };

    /// What follows one that follows a thing follows that thing.
    ghost follows_on: { (t u v : Self) → follows t u → follows u v → follows t v };
}
