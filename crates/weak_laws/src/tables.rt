//! What tables and weak arrays of an object graph are, and what each entry does to one, over plain data.
pub mod laws;
