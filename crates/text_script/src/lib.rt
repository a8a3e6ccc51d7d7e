//! Scripts, schedules and reply lines as text: what a script is, its first fault, scripts that are generated, how commands, replies and headings
//! are printed, and how a run is driven by a schedule.
#![tactic(auto)]

pub mod decimals;
pub mod fault;
pub mod form;
pub mod front;
pub mod generator;
mod grammar;
pub mod law;
mod line;
mod number;
pub mod print;
pub mod read;
pub mod schedule;
pub mod script;
pub mod section;
pub mod spawned;
mod spawns;
pub mod split;
mod table;
mod text;
pub mod version;
pub mod words;

pub use fault::ScriptFault;
pub use front::Line;
pub use generator::generate;
pub use print::{print_command, print_heading, print_reply};
pub use read::read_script;
pub use script::Script;
pub use section::{NoSection, join_sections, read_section};
pub use version::Version;
