//! Each race can be repeated: why the schedule of a history's turns has its replies.
pub mod laws;
