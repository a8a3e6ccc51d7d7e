//! The step calls of a collection of the major heap that empty the keys of ephemerons whose blocks
//! aren't marked, in Clean. docs/RULE.md says how to add one.
mod wiping;

pub use wiping::{wipe_data, wipe_key};
