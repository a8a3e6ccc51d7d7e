//! An example of a program of one's own on a heap session: a cache with a bounded number of entries, each of a key that
//! the program holds in a register. An entry goes once its key is gone, or where so many other keys were used since as the
//! cache may have entries.
//!
//! ```text
//! let mut cache = Cache::make(rt, TableSession::make(alloc, 4096, 64, 100)?, 100)?;
//! cache.new_key(rt, 1);
//! cache.insert(rt, 1, 0);
//! cache.let_go(rt, 1);
//! cache.collect(rt);
//! ```
#![tactic(auto)]

mod cache;

pub use cache::{Cache, Inserted};
