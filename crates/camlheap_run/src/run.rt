//! Runs a script on one heap: a domain for each section, in threads.
pub(crate) mod begin;
pub(crate) mod end;
pub(crate) mod load;
pub(crate) mod script;
pub(crate) mod spawns;
