//! What whoever plays may do, and what it is told.
use crate::player::Called;
use model_core::command::Command;
use model_core::reply::Reply;
use run_seats::shared::Refused;
use run_turns::singly::Came;

/// What whoever plays a domain does next.
#[derive(Clone, Copy)]
pub enum Move {
    /// Hands in a command, which is made at once where that can be.
    Call(Command),
    /// Takes a turn.
    Turn,
    /// Takes the oldest finaliser that has run.
    Take,
    /// Asks what a register holds.
    Show(u8),
    /// Says that no command comes any more.
    Close,
    /// Does nothing in this round.
    Pass,
}

/// What a move came to.
#[derive(Clone, Copy)]
pub enum Told {
    /// No move was made so far, or nothing was done.
    Nothing,
    /// What handing in the command came to.
    Called(Called),
    /// How far the turn came, and the reply where the command was made that was awaited.
    Turned(Came, Option<Reply>),
    /// The finaliser, if one waited.
    Took(Option<Reply>),
    /// What the register holds, if there is such a register.
    Shown(Option<Reply>),
    /// Whether the domain was closed, and else why not.
    Closed(Option<Refused>),
}

/// Whoever plays a domain: any way of choosing what to do next by all that was told so far. It has no clauses, so
/// nothing is known of it.
pub trait Client {
    /// What it does next, after its last move came to this.
    fn next(&mut self, told: Told) -> Move;
}
