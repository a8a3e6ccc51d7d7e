//! A heap of one domain that a program drives from its own thread: it hands in a command, gets the reply, and
//! chooses the next one by it.
//!
//! ```text
//! let mut session = Session::make(alloc, 4096, 64, 8, 16)?;
//! session.perform(Command::Alloc { dst: 1, tag: 0, fields: 2 });
//! let live = session.perform(Command::FullMajor);
//! let ended = session.stop();
//! ```
//!
//! The calls of `weak_tables` on weak arrays and tables take a [`TableSession`], which registers no finaliser.
#![tactic(auto)]

pub mod domains;
mod ended;
mod performing;
mod refusing;
mod session;
mod tables;

pub use ended::EndedSession;
pub use refusing::Refusal;
pub use session::Session;
pub use tables::TableSession;
