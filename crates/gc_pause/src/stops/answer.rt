//! Wishes, and what a look at the barrier answers.
use heap_rule::Kind;

/// A wish of a domain.
#[derive(Clone, Copy, Debug, PartialEq, Eq)]
pub enum Want {
    /// A minor collection.
    Minor,
    /// A collection of the major heap.
    Cycle,
    /// The end of a collection that is under way beside running domains. A domain asks for it in a
    /// poll, where it has noted no block more that is to be scanned.
    Finish,
    /// A complete collection.
    Full,
}

/// The wishes that a load of the want word found. 0 says that there are none.
#[derive(Clone, Copy, Debug, PartialEq, Eq)]
pub struct Wants {
    pub bits: u64,
}

/// What a look at the barrier found.
#[derive(Clone, Copy, Debug, PartialEq, Eq)]
pub enum Look {
    /// An even phase of this kind has begun.
    Next(Kind),
    /// An odd phase has begun.
    Lead,
    /// Not all domains have arrived: the barrier word.
    NotAll(u64),
}
