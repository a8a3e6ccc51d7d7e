//! Tests of a heap that several threads drive.
#[cfg(test)]
mod eight;
#[cfg(test)]
mod judge;
#[cfg(test)]
mod resources;
#[cfg(test)]
mod texts;
#[cfg(test)]
mod threads;
