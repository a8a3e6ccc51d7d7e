//! Whether a history is a run of a script whose sections spawn one another, and prints an output: it is played on the slow heap.
mod expansion;
mod made;
mod parts;
mod play;
mod prelude;
mod printing;
mod replay;
mod section;

pub use replay::gives_spawning;
