//! What programs may rely on, whatever the history: laws of all legal histories, in the words of those who use the heap.
pub mod laws;
