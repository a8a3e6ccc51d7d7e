//! The names of blocks.

/// The `serial`-th block that `domain` has allocated. The shared block is `0:0`.
#[derive(Clone, Copy, Debug, PartialEq, Eq)]
pub struct Label {
    pub domain: u32,
    pub serial: u32,
}
