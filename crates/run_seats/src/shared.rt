//! Domains that get their commands handed in, each with a share of its heap. Their calls wait for nobody: a program that
//! has no thread to lend turns them when it likes, and is told where others are missing.
mod bed;
mod direct;
mod idle;
mod making;
mod shared;
mod standing;
mod walking;

pub use crate::beds::NoBed;
pub use bed::{NotRested, RunBed};
pub use idle::{Idle, attend};
pub use making::make_all;
pub use shared::{Refused, SharedRun};
pub use standing::{Kept, Standing};
