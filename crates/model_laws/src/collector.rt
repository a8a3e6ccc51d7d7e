//! What of the collector a program sees.
pub mod laws;
