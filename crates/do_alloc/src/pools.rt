//! Blocks of the major heap: free places of pools, each pool being one domain's for blocks of one size.
//!
//! No call takes a lock or memory ("Retrofitting Parallelism onto OCaml", section 3.1). A domain sweeps
//! what is left of its own pools before it answers that no pool is to be had (section 3.2 there).
//! While a cycle goes on beside running domains a block of the pools is allocated marked and scanned
//! (section 4.3 there).
mod allocation;
mod draw;
mod ephemerons;
mod listing;
mod new_marks;
mod no_pool;
mod search;
mod taking;
mod words;

pub use allocation::alloc_major;
pub use ephemerons::create;
pub use listing::{list_free, set_cursor_back};
pub use no_pool::NoPool;
pub use taking::{take, take_for_copy};
pub use words::{class_for, write_words};
