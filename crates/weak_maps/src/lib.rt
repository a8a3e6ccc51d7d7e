//! Weak maps that grow, for one domain and for several that share the heap.
#![tactic(auto)]

pub mod cleaning;
pub mod digits;
mod emptying;
pub mod getting;
pub mod lists;
pub mod machine;
pub mod making;
pub mod putting;
pub mod replies;
pub mod shared;
pub mod sweeps;
pub mod taking;
