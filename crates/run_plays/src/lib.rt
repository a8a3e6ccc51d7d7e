//! Domains in one hand, each with a log of its calls: one legal history has of each just what its log says, whatever
//! their clients choose. No clause says that a client's move is made.
#![tactic(auto)]

mod log;
mod moves;
mod player;
mod plays;

pub use log::Log;
pub use moves::{Client, Move, Told};
pub use player::{Called, Player};
pub use plays::{Played, plays_by_turns};
