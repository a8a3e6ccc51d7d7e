//! What rests.

/// A thing that others may take further while it rests. Those of one pool share something.
pub trait Restful<S> {
    /// Whether it is one of those that share this.
    ghost shares: { S → Self → Type 0 };

    /// Whether the second is the first, maybe further on.
    ghost follows: { Self → Self → Type 0 };

    /// Takes it further, as far as it goes at once. Answers whether it went on.
    fn attend(&mut self, shared: &S) -> bool
        requires here { shares shared.now self.old }
        ensures here { shares shared.now self.new }
        ensures follows { follows self.old self.new };

    /// Each follows itself.
    ghost follows_itself: { (t : Self) → follows t t };

    /// What follows one that follows a thing follows that thing.
    ghost follows_on: { (t u v : Self) → follows t u → follows u v → follows t v };

    /// Two that share one thing share all that one of them shares.
    ghost share_alike: { (s z : S) (t u : Self) → shares s t → shares s u → shares z t → shares z u };
}
