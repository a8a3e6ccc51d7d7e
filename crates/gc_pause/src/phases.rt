//! A domain's share of each phase of a collection of the major heap, and how domain 0 leads through it.
//!
//! No call takes a lock or memory.
mod decider;
mod leading;
mod opening;
mod progress;
mod sharing;

pub use decider::Decider;
pub use leading::lead_on;
pub use sharing::{give_back, share};
