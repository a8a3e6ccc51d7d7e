//! Calls on a weak map of a heap of one domain, told of the list of its bindings, and a count of them.
pub mod calls;
pub mod counting;
