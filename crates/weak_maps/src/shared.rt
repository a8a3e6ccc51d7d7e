//! Maps that several domains use at once: what each call may rely on of the others, and the one order of all calls.
pub mod laws;
