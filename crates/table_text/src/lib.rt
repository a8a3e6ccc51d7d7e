//! The text of a table: what its lines are, its first fault, and how it is read.
#![tactic(auto)]

mod form;
pub mod law;
pub mod line;
pub mod machine;
mod number;
pub mod read;
mod row;
pub mod sections;
mod split;
pub mod text;
pub mod version;
mod word;

pub use line::TableLine;
pub use read::read_table;
pub use sections::{SectionsText, read_sections};
pub use text::TableText;
pub use version::Version;
