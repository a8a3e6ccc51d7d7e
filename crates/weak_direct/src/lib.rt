//! Weak maps for a domain that waits for nobody.
#![tactic(auto)]

pub mod direct;
pub mod getting;
pub mod making;
pub mod putting;
pub mod shared;
pub mod taking;
