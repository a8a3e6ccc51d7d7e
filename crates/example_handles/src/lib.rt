//! An example of a program of one's own on a heap with seats: each thread has resources, which are closed by their
//! owner, or else by a finaliser once nothing leads to their handle.
//!
//! ```text
//! let (seats, mut all) = Handles::make(rt, alloc, 2, 4096, 64, 100)?;
//! let mut handles = all.remove(0).resume(rt, &seats);
//! let number = handles.open(rt, &seats, 1);
//! handles.perform(rt, &seats, Command::Forget { dst: 1 });
//! handles.collect(rt, &seats);
//! let resting = handles.rest(rt, &seats);
//! ```
#![tactic(auto)]

mod handles;
mod heaps;
mod resource;
mod resting;

pub use handles::Handles;
pub use resource::Resource;
pub use resting::RestingHandles;
