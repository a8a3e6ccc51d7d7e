//! The step calls of a collection of the major heap: each makes one step on the words by which
//! blocks are marked. docs/RULE.md says how to add one.
mod arming;
mod changed;
mod colours;
mod looking;
mod marking;
mod scanning;
mod walking;

pub use arming::{armed_load, armed_now, armed_store};
pub use changed::{changed_clear, changed_load};
pub use colours::colours_now;
pub use looking::{Looking, colours_load};
pub use marking::{darken_exchange, target_load};
pub use scanning::{changed_store, scan_load, scanned_store};
pub use walking::{grey_load, mark_load, own_load};
