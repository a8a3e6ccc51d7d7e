//! Whether a history is legal, makes the commands of a script, and prints an output: it is played on the slow heap.
mod command;
mod domain;
mod lines;
mod play;
mod replay;

pub use command::same_command;
pub use lines::behind_section;
pub use play::follow;
pub use replay::gives;
