//! A search for a history that makes an output. Nothing is claimed of what it finds: `judge_plain::history` plays it.
mod collect;
mod command;
mod lines;
mod list;
mod near;
mod plain;
mod reach;
mod run;
mod search;
mod section;
mod state;
mod step;

pub use search::{Found, Nearest, Search};
