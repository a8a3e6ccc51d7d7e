//! Tests of the public calls of the crates that stand below the shared heap, a file for each crate.
#[cfg(test)]
mod command_line_calls;
#[cfg(test)]
mod decimals_calls;
#[cfg(test)]
mod heap_text_calls;
#[cfg(test)]
mod heap_words_calls;
#[cfg(test)]
mod outer_io_calls;
#[cfg(test)]
mod remembered_set_calls;
#[cfg(test)]
mod same;
#[cfg(test)]
mod size_classes_calls;
