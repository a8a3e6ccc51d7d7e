//! Why a script is refused.
ghost use Rattle.std.specs.Prelude.{◌≡◌};
ghost use Rattle.text_script.specs.declared.fault.ScriptFault.TheVariants.{Memory};

use std::alloc::{AllocError, AllocFailed};
use std::fmt;

/// The first fault of a script, or want of memory. Lines are counted from 1.
#[derive(Clone, Copy, Debug, PartialEq, Eq)]
pub enum ScriptFault {
    /// The line isn't one of the grammar, or doesn't end with a line feed.
    Syntax { line: u32 },
    /// A command before the first heading, or a heading out of order.
    Order { line: u32 },
    /// The number at this place on the line, counted from 1, is outside its range.
    Range { line: u32, which: u32 },
    /// There are more bytes than a script may have. These are so many.
    TooLong { bytes: u64 },
    /// A command after as many as a script may have.
    TooMany { line: u32 },
    /// A spawn of a section that isn't a later one or that was spawned before, a join of a section
    /// that its own section hasn't spawned before it, or a section but the first that begins before
    /// it is spawned.
    Spawn { line: u32 },
    /// Memory ran out.
    Memory,
}

impl From<AllocError> for ScriptFault {
    ghost from_gives = { λ _ e. e ≡ Memory };

    fn from(_: AllocError) -> Self {
        ScriptFault::Memory
    }
}

impl<T: Drop> From<AllocFailed<T>> for ScriptFault {
    ghost from_gives = { λ _ e. e ≡ Memory };

    fn from(_: AllocFailed<T>) -> Self {
        ScriptFault::Memory
    }
}

/// What is said of a script that is refused, on a line.
impl fmt::Display for ScriptFault {
    fn fmt<W: fmt::Write>(&self, f: &mut fmt::Formatter<W>) -> fmt::Result {
        match self {
            ScriptFault::Syntax { line } => write!(f, "script line {line}: syntax"),
            ScriptFault::Order { line } => write!(f, "script line {line}: section order"),
            ScriptFault::Range { line, which } => {
                write!(f, "script line {line}: number {which} out of range")
            }
            ScriptFault::TooLong { .. } => write!(f, "script: more than 16777216 bytes"),
            ScriptFault::TooMany { line } => write!(f, "script line {line}: too many commands"),
            ScriptFault::Spawn { line } => write!(f, "script line {line}: spawn"),
            ScriptFault::Memory => write!(f, "out of memory"),
        }
    }
}
