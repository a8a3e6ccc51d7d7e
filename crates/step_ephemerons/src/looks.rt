//! The step calls of a collection of the major heap that look at ephemerons: in Rounds their data are
//! marked, and in Clean those keys are found that are to be emptied. docs/RULE.md says how to add one.
mod emptying;
mod looking;
mod rounding;

pub use emptying::{clean_end, clean_key_load, clean_key_look, clean_label_load, clean_load};
pub use rounding::{datum_load, ephemeron_load, key_load, key_look};
