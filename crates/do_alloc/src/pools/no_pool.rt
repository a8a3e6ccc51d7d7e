//! Why no block was taken.

/// No pool is to be had: so many are free, which promotion may need all.
#[derive(Clone, Copy, Debug, PartialEq, Eq)]
pub struct NoPool {
    pub free: u32,
}
