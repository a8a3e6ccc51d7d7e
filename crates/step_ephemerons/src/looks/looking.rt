//! What looks at heads have in common.
use heap_rule::{Change, Own, Writing};

// The token's own data stays as it is. The address is there for the pick alone.
#[derive(Clone, Copy)]
pub(crate) struct LookingAt {
    pub(crate) at: u32,
}

impl Writing for LookingAt {
    ghost use Rattle.heap_rule.specs.Raw.{CanLeave, Leaves};

    ghost can = { λ _ _ _ own. CanLeave own };

    ghost writes = { λ _ _ _ own after. Leaves own after };

    fn write(&self, _found: u64, _changes: &[Change], _own: &mut Own) {}
}
