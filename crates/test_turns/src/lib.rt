//! Tests of domains that run traces on a shared heap: by turns, in threads, and in the slices of their work for the collector.
#![tactic(auto)]

#[cfg(test)]
mod drives;
#[cfg(test)]
mod fixtures;
#[cfg(test)]
mod scenes;
#[cfg(test)]
mod slices;
#[cfg(test)]
mod spawns;
#[cfg(test)]
mod traces;
