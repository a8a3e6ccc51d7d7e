//! The step calls of marking, in a pause and beside running domains. docs/RULE.md says how to add one.
#![tactic(auto)]

pub mod beside;
pub mod marking;
