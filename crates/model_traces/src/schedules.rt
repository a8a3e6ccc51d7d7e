//! What a script answers under a given schedule, over plain data, and why: a complete collection is a function of the
//! state, but for garbage, however its entries are cut and ordered.
mod items;
pub mod laws;

pub use items::Item;
