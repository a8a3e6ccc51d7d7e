//! A domain's share of the end of a collection of the major heap: what is garbage in its own pools is
//! freed, once no garbage is on its list of ephemerons, in a pause or in slices while the domain runs;
//! and in a pause what lives there is counted. Where the collection is answered the pools in which
//! nothing is left are given back.
//!
//! Each domain sweeps its own pools, with no lock and no memory ("Retrofitting Parallelism onto
//! OCaml", section 3.2).
#![tactic(auto)]

mod counting;
mod pruning;
mod returning;
mod sweeping;
mod words;

pub use counting::count_own;
pub use returning::return_pools;
pub use sweeping::{sweep_own, sweep_slice};
