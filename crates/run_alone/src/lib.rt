//! The run of a heap's only domain, driven by its caller: each call returns, since nobody is there that it could wait
//! for.
#![tactic(auto)]

mod ending;
mod handing;
mod passing;
mod pausing;
mod performing;
mod serving;
mod trying;
mod wishing;

pub use ending::end;
pub use handing::hand_in;
pub use pausing::come_back;
pub use performing::finish;
