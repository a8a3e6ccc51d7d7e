//! What the laws of spawns and joins say of each script of version 3 that is read.
pub mod law;
