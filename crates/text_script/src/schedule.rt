//! Schedules: how the text of one is read, and how a run is driven by it.
pub mod drive;
pub mod text;
