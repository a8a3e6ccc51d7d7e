//! Schedules as text: how one is read, with its first wrong line, and which scripts can be replayed.
mod allowed;
mod fault;
pub mod law;
mod reading;
mod replay;
mod schedule;

pub use allowed::{NotReplayable, replayable};
pub use fault::ScheduleFault;
pub use reading::read_schedule;
pub use replay::{Replay, ReplayFault, read_replay};
pub use schedule::Schedule;
