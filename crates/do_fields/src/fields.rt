//! The commands on registers and on the fields of blocks, plain or raw. Each makes one entry of the history,
//! and its reply is the one that the object graph gives at that entry.
//!
//! None of these calls takes a lock or memory.
mod exchanging;
mod fields;
mod registers;

pub use exchanging::cas;
pub use fields::{load, must_remember, shown_register, store};
pub use registers::{copy, forget, put_int};
