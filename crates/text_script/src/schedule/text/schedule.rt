//! Schedules.
ghost use Rattle.std.specs.Prelude.{◌≡◌};

use model_traces::schedules::Item;
use std::marker::Model;

/// A schedule: its items, in order.
#[derive(Drop)]
pub struct Schedule {
    pub(crate) list: Vec<Item>,
}

impl Model for Schedule {
    ghost use Rattle.std.specs.Prelude.{List};
    ghost use Rattle.model_traces.specs.declared.schedules.items.Item.{Item as Declared};

    ghost Value = { List Declared };

    ghost view = { λ s. s.list.items };
}

impl Schedule {
    /// The items, in order.
    pub fn items(&self) -> &[Item]
        ensures { result.now ≡ self.now }
    {
        self.list.as_slice()
    }
}
