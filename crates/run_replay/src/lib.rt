//! The runs of one heap that one thread drives, as a replay turns them.
//!
//! All domains are driven by their runs' holder, so that each sees what the others have made before it makes
//! a step of its own. Domain 0 leads the pauses as the holder says, whatever the domains wish.
#![tactic(auto)]

mod gathered;
mod halting;
mod meeting;
mod passing;
mod replay;
mod stepping;
mod together;

pub use gathered::Gathered;
pub use replay::replay_runs;
