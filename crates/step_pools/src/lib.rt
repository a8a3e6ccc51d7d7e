//! The step calls that take a free block of the pools, make a block there, and write the list of free
//! pools anew. docs/RULE.md says how to
//! add one.
#![tactic(auto)]

mod listing;
mod taking;
mod walking;

pub use listing::{
    cursor_clear, cursor_cut, cursor_look, keep_look, list_store, listed_clear, listed_look,
    listed_store, owner_look,
};
pub use taking::{
    clear_store, copy_draw, cursor_add, cursor_load, draw_limit, ephe_store, fill_store,
    head_store, list_load, listed_load, owner_store, young_look,
};
pub use walking::{
    class_blocks, class_size, owner_load, owner_word, place_address, place_behind, place_load,
    pool_after,
};
