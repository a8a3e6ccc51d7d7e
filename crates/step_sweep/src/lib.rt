//! The step calls of the end of a collection of the major heap: the colours are rotated, garbage is
//! freed, and what lives is counted. docs/RULE.md says how to add one.
#![tactic(auto)]

mod answering;
mod counting;
mod freeing;
mod heads;
mod holding;
mod looking;
mod owners;
mod pruning;
mod returning;
mod turning;

pub use answering::{live_blocks_load, live_words_load};
pub use counting::{blocks_add, count_load, count_own_load, words_add};
pub use freeing::{free_store, sweep_anew, sweep_load, sweep_own_load};
pub use heads::has_colour;
pub use holding::{held_load, held_own_load};
pub use owners::{OWNERS, own_class};
pub use pruning::prune_load;
pub use returning::{list_void, pool_return, top_load};
pub use turning::{blocks_clear, colours_store, words_clear};
