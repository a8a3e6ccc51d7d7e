//! The registers that a walk over a map used are emptied.
ghost use Rattle.weak_maps.specs.Cleans.{EmptiedHigh};
ghost use Rattle.weak_maps.specs.Frames.{Leaves};

use crate::machine::{Machine, perform};
use model_core::command::Command;
use std::sync::Wait;

// Empties registers 8 to 15.
pub(crate) fn forget_high<M: Machine, R: Wait>(m: &mut M, rt: &R)
    ensures leaves { Leaves M.sizes M.domain M.heap M.front M.labels_left M.ephes_room m.old m.new }
    ensures forgot { EmptiedHigh (M.sizes m.old) (M.domain m.old) (M.front m.old) (M.front m.new) 16 }
{
    m.shows_legal();
    'registers: for dst in 8..16u8 {
        let _empty = perform(m, rt, Command::Forget { dst });
    }
}
