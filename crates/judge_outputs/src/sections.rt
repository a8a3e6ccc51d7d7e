//! Judges an output of a text of a table for several domains: whether it is a run of their machine. A run is told by the order of
//! all lines. What the search proposes is played before it is believed.
mod check;
pub mod explain;
mod goes;
pub mod laws;
mod play;
mod search;
mod told;
pub mod turn;

pub use explain::{Explained, explain_sections};
pub use turn::Turn;
