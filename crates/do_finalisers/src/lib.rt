//! Finalisers of a domain. A running domain registers a function for a block, by `finalise` or by
//! `finalise_last`; in a collection it queues those whose blocks aren't reachable any more; and it
//! runs the queue, one finaliser a call (OCaml manual, module `Gc`).
//!
//! No call takes a lock or memory.
#![tactic(auto)]

mod deciding;
mod registering;
mod running;

pub use deciding::{darken_queued, decide, last};
pub use registering::{finalise, finalise_last};
pub use running::{Ran, run_next};
