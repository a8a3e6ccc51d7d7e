//! The words of the heap: values, block heads, colours and labels, each packed into 64 bits.
//!
//! A word is read back by the matching `unpack` call, which answers `None` where nothing packs to it, or by the
//! matching `read` call, which tests nothing, where it is known that something packs to it.
#![tactic(auto)]

pub mod classes;
mod colours;
mod head;
mod label;
pub mod remembered;
mod value;

pub use colours::{Colours, pack_colours, read_colours, rotate, unpack_colours};
pub use head::{Head, pack_head, read_head, unpack_head};
pub use label::{pack_label, read_label, unpack_label};
pub use value::{Value, pack_value, read_value, unpack_value};
