//! What a whole session makes.
pub mod laws;
