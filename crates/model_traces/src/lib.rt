//! Traces of several domains, over the model: schedules and the runs that keep to them, orders of replies, and sections that are spawned.
#![tactic(auto)]

pub mod orders;
pub mod scheduled;
pub mod schedules;
pub mod spawns;
