//! The step calls on ephemerons: of commands, of the looks of a collection, and of the wipes that empty keys and data. docs/RULE.md says how to add one.
#![tactic(auto)]

pub mod commands;
pub mod looks;
pub mod wipes;
