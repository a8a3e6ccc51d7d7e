//! What a search of a key meets.

/// What a search of a key in its bucket has met.
#[derive(Clone, Copy, Debug, PartialEq, Eq)]
pub enum Find {
    /// The ephemeron of the key.
    Key,
    /// An ephemeron without a key, and none of the key.
    Spare,
    /// Neither.
    Nowhere,
}
