//! The step calls of finalisers: a running domain registers one, or runs the first of its queue; and
//! in a collection it looks at its registrations, of which those whose blocks aren't marked are queued.
//! docs/RULE.md says how to add one.
#![tactic(auto)]

mod looking;
mod registering;
mod running;

pub use looking::{final_look, last_look};
pub use registering::{register_final, register_last};
pub use running::run_first;
