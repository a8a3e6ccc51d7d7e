//! Steps at a place of a pool that leave the token's own data as it is.
use heap_rule::{Change, Own, Writing};

// The place is there for the pick alone.
#[derive(Clone, Copy)]
pub(crate) struct Looking {
    pub(crate) at: u32,
    pub(crate) pool: u32,
    pub(crate) class: u32,
    pub(crate) slot: u32,
}

impl Writing for Looking {
    ghost use Rattle.heap_rule.specs.Raw.{CanLeave, Leaves};

    ghost can = { λ _ _ _ own. CanLeave own };

    ghost writes = { λ _ _ _ own after. Leaves own after };

    fn write(&self, _found: u64, _changes: &[Change], _own: &mut Own) {}
}
