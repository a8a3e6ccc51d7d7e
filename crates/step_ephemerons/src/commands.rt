//! The step calls of a running domain on ephemerons: each makes one step on the table of a shared
//! heap, and the changes of the token that it was given. docs/RULE.md says how to add one.
mod loading;
mod storing;

pub use loading::{ephe_head_load, weak_load};
pub use storing::{data_store, key_store};
