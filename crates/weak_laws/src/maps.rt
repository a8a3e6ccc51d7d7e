//! What weak maps of an object graph are, tries whose leaves are ephemerons, and what each entry does to one, over plain
//! data.
pub mod laws;
