//! The step by which a running domain compares its queue of finalisers with the history.
mod looking;

pub use looking::queue_load;
