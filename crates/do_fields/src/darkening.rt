//! What a running domain darkens while a cycle goes on beside running domains: what it overwrites, and
//! what a weak read brings back.
//!
//! No call takes a lock or memory ("Retrofitting Parallelism onto OCaml", section 4.3).
mod darkening;
mod heads;
mod overwriting;

pub use darkening::{darken_beside, darken_now};
pub use heads::{ToScan, darkened_head, scan_of};
pub use overwriting::overwrite_barrier;
