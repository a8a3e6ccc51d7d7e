//! Who decides which collections are made in a pause.

/// Who decides whether a collection of the major heap begins, whether one that goes on is finished, and
/// whether it is a complete one.
#[derive(Clone, Copy, Debug, PartialEq, Eq)]
pub enum Decider {
    /// What the domains wish, and how few pools are free.
    Wishes,
    /// The caller: a complete collection is made in this pause, or none.
    Caller { complete: bool },
}
