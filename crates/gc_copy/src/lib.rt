//! A domain's share of a collection of young blocks: it races with the others for each block, copies
//! those that it wins into its own pools, and leaves no address of a minor area behind.
//!
//! No call takes a lock or memory ("Retrofitting Parallelism onto OCaml", section 3.2).
#![tactic(auto)]

mod claiming;
mod filling;
mod finalisers;
mod heads;
mod places;
mod promotion;
mod roots;

pub use claiming::claim;
pub use promotion::promote;
