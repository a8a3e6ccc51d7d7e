//! Why a schedule is refused.
ghost use Rattle.std.specs.Prelude.{◌≡◌};

/// The first line that isn't one of a schedule, or want of memory. Lines are counted from 1.
#[derive(Clone, Copy, Debug, PartialEq, Eq)]
pub enum ScheduleFault {
    /// The line isn't one that may stand there, or doesn't end with a line feed.
    Line { line: u32 },
    /// Memory ran out.
    Memory,
}
