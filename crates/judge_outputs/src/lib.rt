//! The judge of outputs: whether some legal history makes an output, from the bytes that are read to the bytes that are written.
#![tactic(auto)]

mod explain;
mod input;
mod judged;
mod judging;
mod ordering;
mod reading;
mod replaying;
mod scheduling;
pub mod search;
pub mod sections;
mod show;
mod tables;
pub mod texts;
mod turns;

pub use explain::{Seek, Sought};
pub use judged::Judged;
pub use judging::judge;
pub use ordering::judge_sections;
pub use replaying::{JudgedReplay, judge_replay};
pub use scheduling::{TurnsJudged, judge_turns};
pub use tables::{JudgedTable, judge_table};
