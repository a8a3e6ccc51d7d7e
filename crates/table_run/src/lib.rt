//! A text of a table, run line by line over a session.
#![tactic(auto)]

pub mod keepers;
mod line;
mod prepare;
pub mod text;

pub use text::run_text;
