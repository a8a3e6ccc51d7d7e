//! Reads the texts that a source gives: a script, whose sections threads of their own read, a replay, or a table.
pub(crate) mod cut;
pub(crate) mod reader;
pub(crate) mod texts;
pub(crate) mod threads;
