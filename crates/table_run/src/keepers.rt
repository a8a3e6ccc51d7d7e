//! What keeps the bindings of a table's text: a table of 64 buckets or a weak map, and the calls on either.
pub mod calls;
pub mod domain;

pub use domain::OneDomain;
