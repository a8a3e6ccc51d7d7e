//! The step calls of a running domain: each makes one step on the table of a shared heap, and the changes of the token that it was given. docs/RULE.md says how to add one.
#![tactic(auto)]

pub mod exchange;
pub mod fields;
pub mod queues;
pub mod young;
