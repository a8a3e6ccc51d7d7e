//! All domains of a heap that are in one hand are given back at once, and leave one history. Others may have the heap still.
#![tactic(auto)]

mod joined;

pub use joined::{Joined, join_all};
