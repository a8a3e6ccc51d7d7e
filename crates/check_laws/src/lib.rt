//! Over the contracts of public calls: laws in a user's words, of runs, sections, sessions and texts of tables, and wrong outcomes, each refused by a lemma.
#![tactic(auto)]

pub mod refused_calls;
pub mod refused_program;
pub mod runs;
pub mod sections;
pub mod sessions;
pub mod texts;
