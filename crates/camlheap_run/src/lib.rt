//! The top call: all that the program does, over the words of the command line, a source, a sink and a gate.
#![tactic(auto)]

mod generate;
mod read;
mod replay;
mod run;
mod source;
mod status;
mod table;
mod top;
mod write;

pub use status::{Status, fault_line, status_number};
pub use text_script::words::words_fit;
pub use top::camlheap;
