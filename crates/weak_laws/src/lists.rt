//! What a weak map binds, as a list, and what each step to a map leaves of that list, over plain data.
pub mod laws;
