//! Judges an output of a text of a table: whether it is a run of the machine of the text. A run is told by the keys that go
//! before each line. What the search proposes is played before it is believed.
mod bindings;
pub mod explain;
pub mod judge;
pub mod machine;
pub(crate) mod places;
pub(crate) mod replies;
mod search;
pub(crate) mod steps;

pub use explain::{Explained, explain_output};
pub use judge::refused_line;
pub use machine::Gone;
