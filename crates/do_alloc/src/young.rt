//! A domain's own minor area: the allocation of young blocks, and the emptying of the area.
//!
//! A block is written before its head, at which it comes to live: no other domain sees an unfinished
//! one, and no call takes a lock or memory ("Retrofitting Parallelism onto OCaml", section 3).
mod allocation;
mod need;
mod resetting;

pub use allocation::alloc_young;
pub use need::Need;
pub use resetting::reset;
