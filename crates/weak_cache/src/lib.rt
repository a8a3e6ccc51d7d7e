//! A bounded cache on a heap: the values of the keys that were used last, each kept while its key lives.
//!
//! A cache is a plain block of so many fields, its slots. Each holds 0 or a leaf, an ephemeron of one key whose data is the
//! value. So it keeps no more values than it has slots, and none whose key is gone. The slots stand in the order of use, the
//! last used first: a call that puts a key or finds it puts its leaf first.
#![tactic(auto)]

pub mod cache;
pub mod laws;
