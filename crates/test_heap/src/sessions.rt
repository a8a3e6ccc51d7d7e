//! Tests of heaps that a program drives.
#[cfg(test)]
mod caches;
#[cfg(test)]
mod maps;
#[cfg(test)]
mod same;
#[cfg(test)]
mod sessions;
