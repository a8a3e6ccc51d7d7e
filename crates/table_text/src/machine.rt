//! What the lines of a text of a table do, as a machine over plain data, and what is written for each of them.
pub mod laws;
pub mod reply;

pub use reply::{LineReply, said};
