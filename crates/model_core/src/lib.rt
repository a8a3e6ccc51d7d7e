//! The object graph of the heap, and the entries of its history.
#![tactic(auto)]

pub mod command;
pub mod controls;
pub mod counts;
pub mod entry;
pub mod graph;
pub mod label;
pub mod laws;
pub mod reply;
pub mod sequence;
pub mod state;
