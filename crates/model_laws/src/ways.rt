//! What a search for ways says of the heap's own reachability.
pub mod laws;
