//! Weak arrays, and a table whose keys are weak, on one domain.
#![tactic(auto)]

pub mod arrays;
pub mod counting;
pub mod find;
pub mod laws;
pub mod machine;
pub mod making;
pub mod putting;
pub mod replies;
pub mod searching;
pub mod taking;
