//! Dead leaves of a weak map are taken out while other domains use it.
pub mod laws;
pub mod sweeping;
