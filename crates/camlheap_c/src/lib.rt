//! The heap for programs in C: a static library. `library/include/camlheap.h` declares what this file exports.
//!
//! A handle is one domain, with its share of the heap. C keeps it in memory of its own and passes its address. Each call
//! takes the domain out of the handle and puts it back, so a handle holds a domain between two calls, or nothing: then
//! each call says so. No call waits: where a domain waits for others, the caller chooses what to do meanwhile.
#![tactic(auto)]

mod asking;
mod bed;
mod codes;
mod crossing;
mod direct;
mod driving;
mod handle;
mod lending;
mod loose;
mod maps;
mod resting;
mod starting;
mod telling;
