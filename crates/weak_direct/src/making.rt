//! Maps that are made.
ghost use Rattle.std.specs.Prelude.{◌≡◌, ◌<◌, ◌≤◌, None, IfSome};
ghost use Rattle.model_core.specs.History.{IsPrefix};
ghost use Rattle.weak_maps.specs.Frames.{Stays};
ghost use Rattle.weak_direct.specs.Frames.{MakesMap, PutsOff};

use crate::direct::Direct;
use model_core::command::Command;
use model_core::reply::Reply;

/// Makes a map, into a register below 8. It binds nothing. Answers its block, or `full` where the allocation was refused:
/// then the register is as before. One label is left. None where the allocation is put off: then the domain has made no entry.
pub fn map_make<M: Direct>(m: &mut M, dst: u8) -> Option<Reply>
    requires few { dst < 8 }
    requires labels { 1 ≤ M.labels_left m.old }
    ensures stays { Stays M.sizes M.domain M.heap m.old m.new }
    ensures grows { IsPrefix (M.front m.old) (M.front m.new) }
    ensures room { M.ephes_room m.old ≤ M.ephes_room m.new }
    ensures made { IfSome result (MakesMap M.sizes M.domain M.front M.labels_left m.old m.new dst) }
    ensures stopped { result ≡ None → PutsOff M.domain M.front M.labels_left m.old m.new }
{
    m.shows_inside();
    m.perform(Command::Alloc {
        dst,
        tag: 0,
        fields: 512,
    })
}
