//! What weak tables and weak maps of an object graph are, what each entry does to one, and what programs may rely on, over plain data.
#![tactic(auto)]

pub mod lists;
pub mod maps;
pub mod tables;
