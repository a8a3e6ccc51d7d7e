//! Writes the replies and the summary of a run, by pages and buffers.
pub(crate) mod buffer;
pub(crate) mod page;
pub(crate) mod report;
pub(crate) mod sections;
pub(crate) mod summary;
pub(crate) mod tellers;
pub(crate) mod text;
