//! The one domain of a heap, on which tables, weak arrays and weak maps are used.

use model_core::command::Command;
use model_core::reply::Reply;
use std::sync::Wait;
use weak_maps::machine::Machine as MapMachine;
use weak_tables::machine::Machine;

/// A machine of one domain, as the calls of `weak_maps` take it.
pub struct OneDomain<M> {
    /// The machine, as the calls of `weak_tables` take it.
    pub machine: M,
}

impl<M: Machine> MapMachine for OneDomain<M> {
    type Heap = ();

    ghost heap = { λ d. tt };

    ghost sizes = { λ d. M.sizes d.machine };

    ghost domain = { λ d. 0 };

    ghost front = { λ d. M.front d.machine };

    ghost labels_left = { λ d. M.labels_left d.machine };

    ghost ephes_room = { λ d. M.ephes_room d.machine };

    fn shows_legal(&self) {
        self.machine.shows_legal();
    }

    fn domains(&self) -> u32 {
        self.machine.shows_legal();
        1
    }

    fn show(&mut self, r: u8) -> Reply {
        self.machine.show(r)
    }

    fn perform<R: Wait>(&mut self, rt: &R, c: Command) -> Reply {
        self.machine.perform(rt, c)
    }
}
