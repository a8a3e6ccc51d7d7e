//! A domain's share of the phases in which the blocks of the major heap are marked: it marks what its
//! registers refer to and what its queue of finalisers keeps alive, and scans the marked blocks of its own
//! pools, and those that it marks itself, as soon as it has marked them.
//!
//! A running domain marks in slices, by hints of blocks to scan that pass between domains.
//!
//! No call takes a lock ("Retrofitting Parallelism onto OCaml", section 3.2), and a hint for which there
//! is no memory is let go.
#![tactic(auto)]

mod darkening;
mod deck;
mod following;
mod greys;
mod hints;
mod looking;
mod places;
mod queue;
mod roots;
mod rounds;
mod scanning;
mod slices;
mod trail;
mod waiting;
mod workers;

pub use darkening::{Hint, darken};
pub use deck::Deck;
pub use following::scan_marked;
pub use hints::Hints;
pub use queue::mark_queue;
pub use roots::start_roots;
pub use rounds::mark_round;
pub use slices::{Scanned, Why, slice};
