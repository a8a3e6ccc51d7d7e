//! What entries answer.
ghost use Rattle.std.specs.Prelude.{◌≡◌};

use crate::label::Label;
use std::alloc::AllocError;

/// What a command or a finaliser that runs answers.
#[derive(Clone, Copy, Debug, PartialEq, Eq)]
pub enum Reply {
    /// `ok`: the command is done.
    Done,
    /// `int`: the integer that was read.
    Int(i64),
    /// `blk`: the block that was made or read.
    Block(Label),
    /// `type`: a register holds no block of the kind that the command wants, or nothing where a value is wanted, or a
    /// block where an integer is wanted.
    BadType,
    /// `bounds`: the index is not below the count of fields or keys.
    BadIndex,
    /// `none`: the key or the data that was read is empty.
    Empty,
    /// `yes`: the key or the data that was checked is full, or the field held what was expected and was written.
    Yes,
    /// `no`: the key or the data that was checked is empty, or the field held something else and stays.
    No,
    /// `full`: no room was found after a complete collection, and the allocation made no block.
    Full,
    /// `live`: how many blocks the registers and the queues reach, and the sum of their words: the fields and 2 for a
    /// plain or raw block, the keys and 3 for an ephemeron. The words by which its class is larger are not counted.
    Live { blocks: u64, words: u64 },
    /// `fin`: the finaliser of `finalise` with this number ran, on this block.
    Fin { number: u32, label: Label },
    /// `last`: the finaliser of `finalise_last` with this number ran.
    Last { number: u32 },
}

/// The reply of an entry that has one.
#[derive(Clone, Copy, Debug, PartialEq, Eq)]
pub enum Applied {
    /// The reply of a command, or of a finaliser that ran.
    Replied(Reply),
    /// Every other entry has none.
    Silent,
}

/// Why an entry was not applied.
#[derive(Clone, Copy, Debug, PartialEq, Eq)]
pub enum ApplyFault {
    /// The entry is not allowed in this state.
    NotLegal,
    /// There is no memory to follow it.
    Memory,
}

impl From<AllocError> for ApplyFault {
    ghost use Rattle.std.specs.Prelude.{◌≡◌};
    ghost use Rattle.model_core.specs.declared.reply.ApplyFault.TheVariants.{Memory};

    ghost from_gives = { λ _ fault. fault ≡ Memory };

    fn from(_error: AllocError) -> ApplyFault {
        ApplyFault::Memory
    }
}
