//! Beds in which things rest. A thing that lies in one is taken back by whoever has the bed, maybe further on. Meanwhile
//! whoever has another bed of the same room takes it further. No call waits: where another thread is in the way, it says so.
mod bed;
mod restful;
mod rule;
mod steps;

pub use bed::{Bed, NoBed};
pub use restful::Restful;
