//! Tests of the program: words, scripts, schedules and tables.
#![tactic(auto)]

#[cfg(test)]
mod scripts;
#[cfg(test)]
mod words;
