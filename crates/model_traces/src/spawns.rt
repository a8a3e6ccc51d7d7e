//! What sections that spawn and join one another do, over plain data: how their commands stand in a history, and that a join comes after the whole section that it names.
pub mod laws;
