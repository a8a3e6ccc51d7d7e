//! The calls on a map, for a heap of one domain. Each says of the list of the map's bindings what it answers and leaves, and
//! ends with a command, so that no collection is under way behind it.
ghost use Rattle.std.specs.Prelude.{◌≡◌, ◌+◌, ◌<◌, ◌≤◌};
ghost use Rattle.weak_laws.specs.Tables.Performing.{is_spared};
ghost use Rattle.weak_maps.specs.Lists.Stretches.{Forgets, HoldsList};
ghost use Rattle.weak_maps.specs.Lists.Answers.{ListCleansAt, ListGetsAt, ListMakeAnswers, ListPutsAt, ListTakesAt};
ghost use Rattle.weak_maps.specs.Frames.{Leaves};
ghost use Rattle.weak_maps.specs.Lists.Frames.{AllocatesAlone, LeavesAlone, PutsAlone, ReadsAlone};

use crate::cleaning::map_clean;
use crate::getting::map_get;
use crate::machine::{Machine, perform};
use crate::putting::map_put;
use crate::replies::is_other_kind;
use crate::taking::map_take;
use model_core::command::Command;
use model_core::reply::Reply;
use std::sync::Wait;

// Empties register 8 once more, which holds nothing: no collection is under way then.
pub(crate) fn settle<M: Machine, R: Wait>(m: &mut M, rt: &R)
    ensures leaves { Leaves M.sizes M.domain M.heap M.front M.labels_left M.ephes_room m.old m.new }
    ensures forgets { Forgets (M.sizes m.old) (M.domain m.old) (M.front m.old) (M.front m.new) }
{
    let _eight = perform(m, rt, Command::Forget { dst: 8 });
}

/// Binds the key in a register to what another holds, in the map in a third. Answers `type` exactly where the key's register
/// holds no label or the other nothing, and then changes nothing; `full` where an allocation was refused, and then changes no
/// binding; and else that it is done: the list of the bindings without the key is as it was, in its order, but for pairs whose
/// key the collector took. Registers are below 8, and hold what they held; the others hold nothing, if they held nothing.
pub fn list_put<M: Machine, R: Wait>(m: &mut M, rt: &R, map: u8, key: u8, item: u8) -> Reply
    requires few { (map < 8) × (key < 8) × (item < 8) }
    requires labels { 7 ≤ M.labels_left m.old }
    requires room { 1 ≤ M.ephes_room m.old }
    requires alone { (M.sizes m.old).domains ≡ 1 }
    requires list { HoldsList (M.sizes m.old) (M.front m.old) map }
    ensures puts { PutsAlone M.sizes M.domain M.heap M.front M.labels_left M.ephes_room m.old m.new result }
    ensures answer { ListPutsAt (M.sizes m.old) (M.front m.old) (M.front m.new) map key item result }
{
    m.shows_legal();
    let reply = map_put(m, rt, map, key, item);
    m.shows_legal();
    if is_other_kind(&reply) {
        return reply;
    }
    settle(m, rt);
    m.shows_legal();
    reply
}

/// Reads what the map in a register binds the key in another to, into a third. Answers `type` exactly where the second holds no
/// label, and then changes nothing; else what the list bound the key to at a front of the call, or `none`. Registers are below
/// 8, and the others hold nothing afterwards, if they held nothing.
pub fn list_get<M: Machine, R: Wait>(m: &mut M, rt: &R, dst: u8, map: u8, key: u8) -> Reply
    requires few { (dst < 8) × (map < 8) × (key < 8) }
    requires alone { (M.sizes m.old).domains ≡ 1 }
    requires list { HoldsList (M.sizes m.old) (M.front m.old) map }
    ensures reads { ReadsAlone M.sizes M.domain M.heap M.front M.labels_left M.ephes_room m.old m.new
        (is_spared dst + is_spared dst) }
    ensures answer { ListGetsAt (M.sizes m.old) (M.front m.old) (M.front m.new) dst map key result }
{
    m.shows_legal();
    let reply = map_get(m, rt, dst, map, key);
    m.shows_legal();
    if is_other_kind(&reply) {
        return reply;
    }
    settle(m, rt);
    m.shows_legal();
    reply
}

/// Takes the binding of the key in a register out of the map in another. Answers `type` exactly where the register holds no
/// label, and then changes nothing; `none` exactly where the key isn't bound; and else that it is done: what is left is the list
/// without the key, but for pairs whose key the collector took. Registers are below 8, and hold what they held; the others hold
/// nothing, if they held nothing.
pub fn list_take<M: Machine, R: Wait>(m: &mut M, rt: &R, map: u8, key: u8) -> Reply
    requires few { (map < 8) × (key < 8) }
    requires alone { (M.sizes m.old).domains ≡ 1 }
    requires list { HoldsList (M.sizes m.old) (M.front m.old) map }
    ensures leaves { LeavesAlone M.sizes M.domain M.heap M.front M.labels_left M.ephes_room m.old m.new }
    ensures answer { ListTakesAt (M.sizes m.old) (M.front m.old) (M.front m.new) map key result }
{
    m.shows_legal();
    let reply = map_take(m, rt, map, key);
    m.shows_legal();
    if is_other_kind(&reply) {
        return reply;
    }
    settle(m, rt);
    m.shows_legal();
    reply
}

/// Cleans the map in a register: the list of its bindings stays, but for pairs whose key the collector took, and a leaf that is
/// left has a key or no datum. So a datum is reached by its key alone, and by no leaf that has lost its key. The register is
/// below 8. Registers below 8 hold what they held, and the others nothing, if they held nothing.
pub fn list_clean<M: Machine, R: Wait>(m: &mut M, rt: &R, map: u8)
    requires few { map < 8 }
    requires alone { (M.sizes m.old).domains ≡ 1 }
    requires list { HoldsList (M.sizes m.old) (M.front m.old) map }
    ensures leaves { LeavesAlone M.sizes M.domain M.heap M.front M.labels_left M.ephes_room m.old m.new }
    ensures cleans { ListCleansAt (M.sizes m.old) (M.front m.old) (M.front m.new) map }
{
    m.shows_legal();
    let _empty = map_clean(m, rt, map);
    m.shows_legal();
    settle(m, rt);
    m.shows_legal();
}

/// Makes a map, into a register. It binds nothing. Answers its block, or `full` where the allocation was refused: then all
/// registers are as they were. One label is left.
pub fn list_make<M: Machine, R: Wait>(m: &mut M, rt: &R, dst: u8) -> Reply
    requires few { dst < 8 }
    requires labels { 1 ≤ M.labels_left m.old }
    requires alone { (M.sizes m.old).domains ≡ 1 }
    ensures allocates { AllocatesAlone M.sizes M.domain M.heap M.front M.labels_left M.ephes_room m.old m.new
        dst result }
    ensures made { ListMakeAnswers (M.sizes m.old) (M.front m.old) (M.front m.new) dst result }
{
    m.shows_legal();
    let made = perform(
        m,
        rt,
        Command::Alloc {
            dst,
            tag: 0,
            fields: 512,
        },
    );
    m.shows_legal();
    made
}
