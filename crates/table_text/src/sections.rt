//! The text of a table for several domains.
pub mod law;
mod read;
mod step;
pub mod text;

pub use read::read_sections;
pub use text::SectionsText;
