//! One domain's trace of commands, and the turns by which it is run on the shared heap.
//!
//! A turn runs a finaliser, tries one command, does the domain's share of a pause, or ends the trace. It
//! takes no lock and no memory, and never waits.
//!
//! The commands of a run are all given when it is made, or it is an open one: then they are handed in one by
//! one, each once the one before is done. Of an open run a command may also be made at once, without a turn.
#![tactic(auto)]

mod command;
mod direct;
mod driving;
mod meeting;
mod passing;
mod place;
mod run;
mod sections;
mod showing;
pub mod singly;
mod supply;
mod turned;
mod turns;

pub use place::Place;
pub use run::DomainRun;
pub use showing::show;
pub use supply::Supply;
pub use turned::Turned;
pub use turns::{go_on, pass_on, turn};
