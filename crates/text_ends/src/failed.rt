//! The one error of reads and writes.

/// A read or a write failed. Why it did is told by the count of faults of the source or the sink.
#[derive(Clone, Copy, Debug, PartialEq, Eq)]
pub struct Failed;
