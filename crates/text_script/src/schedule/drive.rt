//! The loop of a replay: turns, pauses and complete collections in the order of a schedule, over a trait of runs.
mod pausing;
mod replaying;
mod together;
mod turning;

pub use replaying::replay;
pub use together::{Stepped, TogetherRuns};
