//! Runs the text of a table, of one domain or of several, and writes the replies of its lines.
pub(crate) mod alone;
pub(crate) mod replies;
pub(crate) mod shared;
