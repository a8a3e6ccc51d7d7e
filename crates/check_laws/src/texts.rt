//! What two runs of one text of a table have in common, and worked histories of calls on tables.
pub mod laws;
