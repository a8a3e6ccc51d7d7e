//! How all domains stop, the phases of a pause, and what a turn of a pause leaves as it was.
#![tactic(auto)]

pub mod laws;
pub mod phases;
pub mod stops;
