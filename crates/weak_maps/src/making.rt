//! Maps that are made.
ghost use Rattle.std.specs.Prelude.{◌<◌, ◌≤◌};
ghost use Rattle.weak_maps.specs.Returns.{MakeReturns};
ghost use Rattle.weak_maps.specs.Frames.{Allocates};

use crate::machine::{Machine, perform};
use model_core::command::Command;
use model_core::reply::Reply;
use std::sync::Wait;

/// Makes a map, into a register below 8. It binds nothing. Answers its block, or `full` where the allocation was refused:
/// then the register is as before. One label is left.
pub fn map_make<M: Machine, R: Wait>(m: &mut M, rt: &R, dst: u8) -> Reply
    requires few { dst < 8 }
    requires labels { 1 ≤ M.labels_left m.old }
    ensures allocates { Allocates M.sizes M.domain M.heap M.front M.labels_left M.ephes_room m.old m.new dst result }
    ensures made { MakeReturns (M.sizes m.old) (M.domain m.old) (M.front m.old) (M.front m.new) dst result }
{
    m.shows_legal();
    perform(
        m,
        rt,
        Command::Alloc {
            dst,
            tag: 0,
            fields: 512,
        },
    )
}
