//! Laws of histories and of reach, over the model: what a collection leaves, what survives, and which blocks keep a label.
#![tactic(auto)]

pub mod collector;
pub mod histories;
pub mod reach;
pub mod ways;
