//! The step calls by which young blocks are copied into pools, and minor areas are emptied. docs/RULE.md
//! says how to add one.
#![tactic(auto)]

mod claiming;
mod promoting;

pub use claiming::{claim_exchange, free_store, prepare_head, prepare_label, prepare_store};
pub use promoting::{
    area_reset, copy_end, copy_store, held_move, register_move, remembered_load, remembered_store,
    young_field_load, young_head_load, young_label_load,
};
