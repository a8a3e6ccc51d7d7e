//! Traces that share something, each turned until it has ended: in threads of their own, or all by the caller.
#![tactic(auto)]

mod alone;
mod beside;
mod driving;
mod place;
mod rotation;
mod signals;
mod taking;
mod trace;
mod turning;
mod waiting;

pub use alone::drive_alone;
pub use driving::drive;
pub use trace::{Trace, Went};
pub use waiting::Waiter;
