//! Where the commands of a run come from.

/// Where the commands of a run come from, and whether more may come.
#[derive(Clone, Copy, Debug, PartialEq, Eq)]
pub enum Supply {
    /// All of them were given when the run was made.
    Listed,
    /// So were these, and they are a section of a script with spawns.
    Section,
    /// They are handed in one by one, and more may come.
    Open,
    /// They were handed in one by one, and none comes any more.
    Closed,
}
