//! Domains of one heap that are in one hand: one history has what all of them were told.
#![tactic(auto)]

mod together;

pub use together::{Ended, end_all, one_history};
