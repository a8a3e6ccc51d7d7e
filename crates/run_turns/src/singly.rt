//! Domains whose commands are handed in one by one: the start of their heap, a command that is made at once, the loop by
//! which one is made else, why a command isn't taken, and what a domain counts.
mod awaiting;
mod beginning;
mod counting;
mod meanwhile;
mod opening;
mod refusing;
mod turning;
mod waiting;

pub use awaiting::await_turn;
pub use beginning::begin;
pub use counting::{Stats, counts};
pub use meanwhile::{Alone, Meanwhile};
pub use opening::start;
pub use refusing::{Refusal, fits, refuses};
pub use turning::{Came, turn_below};
pub use waiting::await_reply;
