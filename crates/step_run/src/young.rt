//! The step calls that make a young block in the own minor area: its label, its fields, and its head
//! last. docs/RULE.md says how to add one.
mod making;

pub use making::{head_store, word_store, words_of_class};
