//! The words of the command line: which are taken, and what they ask for.
mod job;
mod long;
mod number;
mod options;
mod parse;
mod words;

pub use job::{Generated, Job};
pub use words::{read_words, words_fit};
