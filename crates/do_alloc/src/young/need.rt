//! Why a young block wasn't allocated.

/// What an allocation waits for.
#[derive(Clone, Copy, Debug, PartialEq, Eq)]
pub enum Need {
    /// The minor area has no room for the block: its `used` words and the block's are more than it
    /// has. A minor collection makes room.
    AreaFull { used: u32 },
    /// So many pools are free, which is fewer than promotion may need.
    Closed { free: u32 },
}
