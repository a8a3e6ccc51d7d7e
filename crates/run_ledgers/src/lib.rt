//! What one domain's calls have made so far, as whoever drives it was told, and how the history has it.
#![tactic(auto)]

mod laws;

pub use laws::{
    commands_add, finalisers_add, ledgers_follow, ledgers_stand, now_adds, only_takes_change,
    ran_taken, ran_waits, turns_add,
};
