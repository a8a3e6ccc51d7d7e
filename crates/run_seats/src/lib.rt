//! A heap that a program of several threads drives. It has one seat for each domain. Whoever has a seat makes commands
//! on it, each in its own thread and at its own pace, and chooses the next one by the last reply.
//!
//! ```text
//! let (seats, mut all) = Seats::make(rt, alloc, config)?;
//! let mut seat = all.remove(0);
//! seat.perform(rt, &seats, Command::Alloc { dst: 1, tag: 0, fields: 2 });
//! let resting = seat.rest(rt, &seats);
//! let seat = resting.resume(rt, &seats);
//! ```
//!
//! A pause needs all domains. A seat takes part in one while it makes a command; while it rests, whoever waits takes
//! its domain along. Finalisers of a domain run between two of its commands, also while its seat rests, and their
//! replies are told apart from the commands'.
#![tactic(auto)]

pub mod beds;
mod closing;
mod idle;
mod performing;
pub mod pool;
mod seat;
mod seats;
pub mod shared;

pub use idle::Idle;
pub use seat::{Resting, Seat};
pub use seats::Seats;
