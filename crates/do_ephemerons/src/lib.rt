//! The commands on the keys and the data of ephemerons, and a domain's share of the phases of a
//! collection of the major heap in which ephemerons are looked at. Each command makes one entry of the
//! history, and its reply is the one that the object graph gives at that entry.
//!
//! An ephemeron has keys, which are blocks or empty, and a datum, which is any value or empty. The
//! keys aren't held by it, and its datum only while all its full keys are held elsewhere (the OCaml
//! manual, module Ephemeron of the standard library).
//!
//! None of these calls takes a lock or memory.
#![tactic(auto)]

mod changing;
mod cleaning;
mod finding;
mod heads;
mod looking;
mod rounds;

pub use changing::{set_data, set_key, unset_data, unset_key};
pub use cleaning::clean;
pub use looking::{check_data, check_key, get_data, get_key};
pub use rounds::round;
