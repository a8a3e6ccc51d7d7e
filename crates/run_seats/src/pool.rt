//! A pool of things that rest. Each has a keeper, who takes it back, maybe further on. Meanwhile whoever has
//! nothing else to do takes them further, one at a time.
mod pool;
mod restful;
mod rule;
mod steps;

pub use pool::{Keeper, Pool};
pub use restful::Restful;
pub use rule::{Knows, Law, Rested};
