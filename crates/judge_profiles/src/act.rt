//! What a domain does in a history, and how that may be shown otherwise.
use model_core::command::Command;
use model_core::reply::Reply;

/// What a domain does: it makes a command, which is answered, or runs a finaliser.
#[derive(Clone, Copy)]
pub enum Act {
    Made { command: Command, reply: Reply },
    Ran { reply: Reply },
}

/// A change of what is shown of a domain. Places are counted from 0.
#[derive(Clone, Copy)]
pub enum Change {
    /// What stands at a place, and what stands behind it, are shown the other way round.
    Swap { place: u32 },
    /// What stands at a place isn't shown.
    Drop { place: u32 },
    /// A command that isn't made is shown at a place, refused by `type`.
    Refuse { place: u32, command: Command },
}
