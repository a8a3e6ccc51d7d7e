//! Why a session doesn't take a command.
use run_turns::singly::Refusal as Lack;

/// Why a command isn't taken.
#[derive(Clone, Copy, Debug, PartialEq, Eq)]
pub enum Refusal {
    /// The command isn't one that runs on the shared heap, or the heap has no room or no label for what it makes.
    Unfit(Lack),
    /// The domain may not arrive as often any more as the pauses may take that a command needs.
    Arrivals,
}
