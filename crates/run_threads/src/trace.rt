//! What is turned.
ghost use Rattle.std.specs.Prelude.{◌≡◌, ◌↔◌, ◌<◌, ℕ, true};

/// How far a turn came.
#[derive(Clone, Copy, Debug, PartialEq, Eq)]
pub enum Went {
    /// It did something.
    On,
    /// It did something, and came to where each trace waits until all have come as often: its next turn does something
    /// only then.
    Arrived,
    /// It waits for others, or for its next command.
    Nowhere,
    /// It waits for a command of another trace. Nobody tells of a command, so it is turned again soon, and
    /// its thread doesn't sleep meanwhile.
    Held,
    /// Its commands are over, and it waits for those of other traces: whoever waits may turn it. It gets no
    /// command any more.
    Idle,
    /// The trace has ended.
    Ended,
}

/// A trace of commands that is turned until it has ended. Up to eight traces share one thing, as the domains of a
/// heap share the heap.
pub trait Trace<S> {
    /// Whether it is one of those that share this.
    ghost shares: { S → Self → Type 0 };

    /// Whether the second is the first, maybe further on.
    ghost follows: { Self → Self → Type 0 };

    /// Whether it has ended.
    ghost is_over: { Self → Type 0 };

    /// The index of its next command.
    ghost index: { Self → ℕ };

    /// Whether a command is left.
    ghost has_more: { Self → Type 0 };

    /// Its number among those that share the thing: 0 to 7.
    fn number(&self, shared: &S) -> u32
        requires here { shares shared.now self.now }
        ensures few { result < 8 };

    /// The index of its next command, or how many there are where none is left.
    fn next_index(&self) -> u32
        ensures index { result ≡ index self.now };

    /// Whether a command is left.
    fn has_next(&self) -> bool
        ensures more { (result ≡ true) ↔ has_more self.now };

    /// One turn.
    fn turn(&mut self, shared: &S) -> Went
        requires here { shares shared.now self.old }
        ensures here { shares shared.now self.new }
        ensures follows { follows self.old self.new }
        ensures over { result ≡ Went.Ended → is_over self.new };

    /// Each follows itself.
    ghost follows_itself: { (t : Self) → follows t t };

    /// What follows one that follows a trace follows that trace.
    ghost follows_on: { (t u v : Self) → follows t u → follows u v → follows t v };
}
