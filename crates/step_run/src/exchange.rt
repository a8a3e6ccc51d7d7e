//! The step call of a running domain by which a field is compared and set at once. docs/RULE.md says
//! how to add one.
mod exchanging;

pub use exchanging::field_exchange;
