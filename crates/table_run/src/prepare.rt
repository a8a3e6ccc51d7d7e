// What keeps the bindings and the weak array, before the first line.
ghost use Rattle.std.specs.Prelude.{◌≡◌, ◌+◌, ◌≤◌, []};
ghost use Rattle.model_core.specs.Domains.{reserve};
ghost use Rattle.weak_tables.specs.Frames.{Spends};
ghost use Rattle.table_run.specs.Running.{Begins};

use crate::keepers::OneDomain;
use crate::keepers::calls::keeper_make;
use std::sync::Wait;
use table_text::Version;
use weak_tables::machine::Machine;
use weak_tables::making::weak_make;

// Makes an empty table or map, into register 6, and a weak array of sixteen empty slots, into register 7. So few labels are
// given out that no allocation can be refused.
pub(crate) fn prepare<M: Machine, R: Wait>(version: Version, m: &mut OneDomain<M>, rt: &R)
    requires empty { M.front m.old.machine ≡ [] }
    requires pools { reserve (M.sizes m.old.machine) + (M.sizes m.old.machine).classes + 32 ≤ (M.sizes m.old.machine).pools }
    requires labels { 18 ≤ M.labels_left m.old.machine }
    requires room { 16 ≤ M.ephes_room m.old.machine }
    ensures spends { Spends M.sizes M.labels_left M.ephes_room 18 16 m.old.machine m.new.machine }
    ensures begins { Begins version (M.sizes m.old.machine) (M.front m.new.machine) }
{
    m.machine.shows_legal();
    let _keeper = keeper_make(version, m, rt, 6);
    m.machine.shows_legal();
    let _array = weak_make(&mut m.machine, rt, 7, 16);
    m.machine.shows_legal();
}
