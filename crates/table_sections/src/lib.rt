//! The sections of a table's text, each run by a domain of its own, in a thread of its own, on one weak map and weak slots that
//! all share.
//!
//! ```text
//! let together = run_sections(rt, alloc, config, sections)?;
//! ```
#![tactic(auto)]

pub mod laws;
mod laying;
mod line;
mod preparing;
mod running;
pub mod section;
mod slots;
mod together;

pub use section::run_section;
pub use together::{Together, run_sections};
