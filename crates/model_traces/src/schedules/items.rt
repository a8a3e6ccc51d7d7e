//! Schedules: lists of items.

/// What comes next in a schedule.
#[derive(Clone, Copy, Debug, PartialEq, Eq)]
pub enum Item {
    /// The domain with this number makes its next command.
    Turn(u32),
    /// All domains make a complete collection.
    Collect,
}
