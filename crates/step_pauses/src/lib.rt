//! The step calls of a pause: each makes one step on the words by which the domains of a heap stop
//! together. docs/RULE.md says how to add one.
#![tactic(auto)]

mod pausing;

pub use pausing::{
    arrive, ask, ended_add, ended_load, look, look_all, plan_load, plan_store, want_clear,
    want_load,
};
