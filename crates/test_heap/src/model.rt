//! Tests that play worked rows on the slow heap, entry by entry.
#[cfg(test)]
mod play;
#[cfg(test)]
mod rows;
