//! Tests of the heap: its calls, the model's worked rows, sessions and seats, and of the judge of tables.
#![tactic(auto)]

#[cfg(test)]
mod calls;
#[cfg(test)]
mod model;
#[cfg(test)]
mod seats;
#[cfg(test)]
mod sessions;
#[cfg(test)]
mod tables;
