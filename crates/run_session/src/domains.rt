//! The domains on which weak maps are used: the one domain of a session, and a seat of a heap that threads share.
mod seat;
mod session;

pub use seat::{SeatDomain, unused_stands};
pub use session::SessionDomain;
