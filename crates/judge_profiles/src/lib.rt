//! What other runtimes may do otherwise by their own documentation: profiles, by which the rules are relaxed, and whether a history explains an output under one.
#![tactic(auto)]

mod act;
mod change;
mod explain;
pub mod laws;
mod profile;
mod replies;

pub use act::{Act, Change};
pub use explain::{Reading, explains_under};
pub use profile::Profile;
