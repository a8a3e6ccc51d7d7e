//! Allocation: in a domain's minor area, and in the pools of the major heap.
#![tactic(auto)]

pub mod pools;
pub mod young;
