//! What commands on registers and fields do on the shared heap, and how a value is darkened beside them.
#![tactic(auto)]

pub mod darkening;
pub mod fields;
