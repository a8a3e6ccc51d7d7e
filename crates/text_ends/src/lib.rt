//! Where the program's bytes come from and go to, each with a count of its faults, and what is called around each command.
#![tactic(auto)]

mod failed;
mod gate;
mod length_sink;
mod mem_sink;
mod mem_source;
mod pieces;
mod sink;
mod source;
mod std_sink;
mod std_source;
mod sure_source;
mod writing;

pub use failed::Failed;
pub use gate::{Gate, NoGate};
pub use length_sink::LengthSink;
pub use mem_sink::MemSink;
pub use mem_source::MemSource;
pub use sink::Sink;
pub use source::Source;
pub use std_sink::StdSink;
pub use std_source::StdSource;
pub use sure_source::SureSource;
pub use writing::write_all;
