//! Why the scheduled history of a script is a run of it, whatever the schedule: a heap may have it, and in it each domain
//! makes its commands and ends.
pub mod laws;
