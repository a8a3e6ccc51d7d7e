//! The step calls of marking beside running domains: each makes one step on the words by which
//! blocks are marked while commands run. docs/RULE.md says how to add one.
mod marking;
mod scanning;

pub use marking::{beside_darken, beside_target_load};
pub use scanning::{beside_owner_load, beside_place_load, beside_read, beside_scanned_store};
