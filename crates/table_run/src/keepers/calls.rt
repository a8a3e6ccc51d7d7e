//! The calls on what keeps bindings. Each says of the list of the bindings what it answers and leaves.
ghost use Rattle.std.specs.Prelude.{◌≡◌, ◌+◌, ◌<◌, ◌≤◌};
ghost use Rattle.weak_laws.specs.Tables.Performing.{full_of, is_spared, refusals, writings};
ghost use Rattle.table_text.specs.Machine.Machine.{made_by_put};
ghost use Rattle.weak_tables.specs.Frames.{Keeps, Passes, Spends};
ghost use Rattle.table_run.specs.Keepers.Keepers.{HoldsKeeper};
ghost use Rattle.table_run.specs.Keepers.Answers.{CountsAt, GetsAt, MakeAnswers, PutsAt, SweepAnswers, TakesAt};

use crate::keepers::domain::OneDomain;
use model_core::reply::Reply;
use std::sync::Wait;
use table_text::Version;
use weak_maps::lists::calls::{list_clean, list_get, list_make, list_put, list_take};
use weak_maps::lists::counting::map_count;
use weak_maps::machine::Machine as MapMachine;
use weak_tables::counting::table_count;
use weak_tables::machine::Machine;
use weak_tables::making::table_make;
use weak_tables::putting::{table_get, table_put};
use weak_tables::taking::table_take;

/// Makes a table or a map, into a register below 8. It binds nothing. Answers its block, or `full` where the allocation was
/// refused: then all registers are as they were.
pub fn keeper_make<M: Machine, R: Wait>(
    version: Version,
    m: &mut OneDomain<M>,
    rt: &R,
    dst: u8,
) -> Reply
    requires few { dst < 8 }
    requires labels { 1 ≤ M.labels_left m.old.machine }
    ensures sizes { M.sizes m.new.machine ≡ M.sizes m.old.machine }
    ensures labels { M.labels_left m.old.machine + full_of result ≡ M.labels_left m.new.machine + 1 }
    ensures room { M.ephes_room m.old.machine ≤ M.ephes_room m.new.machine }
    ensures refused { refusals (M.front m.new.machine) ≡ refusals (M.front m.old.machine) + full_of result }
    ensures made { MakeAnswers version (M.sizes m.old.machine) (M.front m.old.machine) (M.front m.new.machine)
        dst result }
{
    m.machine.shows_legal();
    match version {
        Version::One => table_make(&mut m.machine, rt, dst),
        Version::Two => list_make(m, rt, dst),
    }
}

/// Binds the key in a register to what another holds. Answers `type` exactly where the key's register holds no label or the
/// other nothing, and then changes nothing; `full` where an allocation was refused, and then changes no binding; and else
/// that it is done. Registers are below 8, and hold what they held.
pub fn keeper_put<M: Machine, R: Wait>(
    version: Version,
    m: &mut OneDomain<M>,
    rt: &R,
    keeper: u8,
    key: u8,
    item: u8,
) -> Reply
    requires few { (keeper < 8) × (key < 8) × (item < 8) }
    requires labels { made_by_put version ≤ M.labels_left m.old.machine }
    requires room { 1 ≤ M.ephes_room m.old.machine }
    requires keeper { HoldsKeeper version (M.sizes m.old.machine) (M.front m.old.machine) keeper }
    ensures spends { Spends M.sizes M.labels_left M.ephes_room (made_by_put version) 1 m.old.machine m.new.machine }
    ensures refused { refusals (M.front m.new.machine) ≡ refusals (M.front m.old.machine) + full_of result }
    ensures written { writings (M.front m.new.machine) ≡ writings (M.front m.old.machine) }
    ensures answer { PutsAt version (M.sizes m.old.machine) (M.front m.old.machine) (M.front m.new.machine)
        keeper key item result }
{
    m.machine.shows_legal();
    match version {
        Version::One => table_put(&mut m.machine, rt, keeper, key, item),
        Version::Two => list_put(m, rt, keeper, key, item),
    }
}

/// Reads what the key in a register is bound to, into another. Answers `type` exactly where the first holds no label, and
/// then changes nothing; else what the key was bound to at a front of the call, or `none`. Registers are below 8.
pub fn keeper_get<M: Machine, R: Wait>(
    version: Version,
    m: &mut OneDomain<M>,
    rt: &R,
    dst: u8,
    keeper: u8,
    key: u8,
) -> Reply
    requires few { (dst < 8) × (keeper < 8) × (key < 8) }
    requires keeper { HoldsKeeper version (M.sizes m.old.machine) (M.front m.old.machine) keeper }
    ensures keeps { Keeps M.sizes M.labels_left M.ephes_room m.old.machine m.new.machine }
    ensures refused { refusals (M.front m.new.machine) ≡ refusals (M.front m.old.machine) + full_of result }
    ensures written { writings (M.front m.new.machine) ≤ writings (M.front m.old.machine) +
        (is_spared dst + is_spared dst) }
    ensures answer { GetsAt version (M.sizes m.old.machine) (M.front m.old.machine) (M.front m.new.machine)
        dst keeper key result }
{
    m.machine.shows_legal();
    match version {
        Version::One => table_get(&mut m.machine, rt, dst, keeper, key),
        Version::Two => list_get(m, rt, dst, keeper, key),
    }
}

/// Takes the binding of the key in a register out. Answers `type` exactly where the register holds no label, and then changes
/// nothing; `none` exactly where the key isn't bound; and else that it is done. Registers are below 8, and hold what they held.
pub fn keeper_take<M: Machine, R: Wait>(
    version: Version,
    m: &mut OneDomain<M>,
    rt: &R,
    keeper: u8,
    key: u8,
) -> Reply
    requires few { (keeper < 8) × (key < 8) }
    requires keeper { HoldsKeeper version (M.sizes m.old.machine) (M.front m.old.machine) keeper }
    ensures keeps { Keeps M.sizes M.labels_left M.ephes_room m.old.machine m.new.machine }
    ensures refused { refusals (M.front m.new.machine) ≡ refusals (M.front m.old.machine) + full_of result }
    ensures written { writings (M.front m.new.machine) ≡ writings (M.front m.old.machine) }
    ensures answer { TakesAt version (M.sizes m.old.machine) (M.front m.old.machine) (M.front m.new.machine)
        keeper key result }
{
    m.machine.shows_legal();
    match version {
        Version::One => table_take(&mut m.machine, rt, keeper, key),
        Version::Two => list_take(m, rt, keeper, key),
    }
}

/// The number of bindings, at some front of the call: the collector may take bindings whose key isn't reached while it goes on.
/// The register is below 8, and registers below 8 hold what they held.
pub fn keeper_count<M: Machine, R: Wait>(
    version: Version,
    m: &mut OneDomain<M>,
    rt: &R,
    keeper: u8,
) -> u32
    requires few { keeper < 8 }
    requires keeper { HoldsKeeper version (M.sizes m.old.machine) (M.front m.old.machine) keeper }
    ensures passes { Passes M.sizes M.front M.labels_left M.ephes_room m.old.machine m.new.machine }
    ensures counts { CountsAt version (M.sizes m.old.machine) (M.front m.old.machine) (M.front m.new.machine)
        keeper result }
{
    m.machine.shows_legal();
    match version {
        Version::One => table_count(&mut m.machine, rt, keeper),
        Version::Two => map_count(m, rt, keeper),
    }
}

/// Sweeps a map: afterwards none of its leaves has a datum without a key. A table has none such, and nothing is done to it. The
/// register is below 8, and registers below 8 hold what they held.
pub fn keeper_sweep<M: Machine, R: Wait>(version: Version, m: &mut OneDomain<M>, rt: &R, keeper: u8)
    requires few { keeper < 8 }
    requires keeper { HoldsKeeper version (M.sizes m.old.machine) (M.front m.old.machine) keeper }
    ensures passes { Passes M.sizes M.front M.labels_left M.ephes_room m.old.machine m.new.machine }
    ensures sweeps { SweepAnswers version (M.sizes m.old.machine) (M.front m.old.machine) (M.front m.new.machine)
        keeper }
{
    m.machine.shows_legal();
    match version {
        Version::One => {}
        Version::Two => list_clean(m, rt, keeper),
    }
}
