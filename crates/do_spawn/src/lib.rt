//! The commands by which sections begin one another and pass values: each stands for a few commands of the hidden block, and its entries stand one behind the other in the domain's part of the history.
//!
//! None of these calls takes a lock or memory.
#![tactic(auto)]

mod flags;
mod opening;
mod values;

pub use flags::{begin, begun, done, finish};
pub use opening::open_hidden;
pub use values::{argument, put_result, take_result};
