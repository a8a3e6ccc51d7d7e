//! Safepoints: all domains stop together and go on together.
mod answer;
mod barrier;

pub use answer::{Look, Want, Wants};
pub use barrier::{arrive, ask, is_wanted, lead, look, look_all, wants};
