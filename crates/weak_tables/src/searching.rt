//! The search of a key in its bucket.
ghost use Rattle.std.specs.Prelude.{◌≡◌, ◌<◌, ◌≤◌, ◌%◌};
ghost use Rattle.model_core.specs.declared.graph.Value.TheVariants.{Block};
ghost use Rattle.weak_laws.specs.Tables.Structures.{bucket_count};
ghost use Rattle.weak_laws.specs.Tables.Stages.{held_in};
ghost use Rattle.weak_tables.specs.Frames.{Passes};
ghost use Rattle.weak_tables.specs.Held.{HoldsTable};
ghost use Rattle.weak_tables.specs.Walks.{KeepsSpare, LooksUp, Searched, passed_all};

use crate::find::Find;
use crate::machine::{CELL, EPHE, LOOKED, Machine, NEXT, OWN, load, perform_between};
use crate::replies::{is_block, is_empty, is_this};
use model_core::command::Command;
use model_core::label::Label;
use model_core::reply::Reply;
use std::sync::Wait;

// The bucket of a key.
pub(crate) fn bucket_of(key: &Label) -> u16
    ensures bucket { result ≡ key.now.serial % bucket_count }
{
    (key.serial % 64) as u16
}

// What was met once all cells were passed.
fn after_all(spare: bool) -> Find
    ensures met { result ≡ passed_all spare }
{
    if spare {
        return Find::Spare;
    }
    Find::Nowhere
}

// Notes the ephemeron of a cell whose key was found empty, if none was noted before: register 8 holds it.
fn keep_spare<M: Machine, R: Wait>(m: &mut M, rt: &R, found: &Reply, spare: bool) -> bool
    ensures passes { Passes M.sizes M.front M.labels_left M.ephes_room m.old m.new }
    ensures kept { KeepsSpare (M.sizes m.old) (M.front m.old) (M.front m.new) found.now spare result }
{
    if spare {
        return true;
    }
    if !is_empty(found) {
        return false;
    }
    let _spare = load(m, rt, EPHE, CELL, OWN);
    true
}

// Looks for the ephemeron of a key, which a register holds, and for one without a key. Where one is met, register 8 holds
// it, the key's before another. Registers 9 and 10 are used between. A bucket has fewer cells than labels were given out.
pub(crate) fn search<M: Machine, R: Wait>(
    m: &mut M,
    rt: &R,
    table: u8,
    key: u8,
    label: &Label,
) -> Find
    requires few { (table < 8) × (key < 8) }
    requires key { held_in (M.sizes m.old) (M.front m.old) key ≡ Block label.now }
    requires table { HoldsTable (M.sizes m.old) (M.front m.old) table }
    ensures passes { Passes M.sizes M.front M.labels_left M.ephes_room m.old m.new }
    ensures searched { Searched (M.sizes m.old) (M.front m.old) (M.front m.new) table label.now result }
{
    m.shows_legal();
    let mut spare = false;
    let mut at = load(m, rt, CELL, table, bucket_of(label));
    'cells: for _ in 0..u32::MAX {
        if !is_block(&at) {
            return after_all(spare);
        }
        let _ephe = load(m, rt, LOOKED, CELL, OWN);
        let found = perform_between(
            m,
            rt,
            Command::GetKey {
                dst: LOOKED,
                ephe: LOOKED,
                index: 0,
            },
        );
        if is_this(&found, label) {
            let _mine = load(m, rt, EPHE, CELL, OWN);
            return Find::Key;
        }
        spare = keep_spare(m, rt, &found, spare);
        at = load(m, rt, CELL, CELL, NEXT);
    }
    unreachable!()
}

// Looks for the ephemeron of a key alone. Where it is found, register 8 holds it.
pub(crate) fn look_up<M: Machine, R: Wait>(
    m: &mut M,
    rt: &R,
    table: u8,
    key: u8,
    label: &Label,
) -> bool
    requires few { (table < 8) × (key < 8) }
    requires key { held_in (M.sizes m.old) (M.front m.old) key ≡ Block label.now }
    requires table { HoldsTable (M.sizes m.old) (M.front m.old) table }
    ensures passes { Passes M.sizes M.front M.labels_left M.ephes_room m.old m.new }
    ensures found { LooksUp (M.sizes m.old) (M.front m.old) (M.front m.new) table label.now result }
{
    m.shows_legal();
    match search(m, rt, table, key, label) {
        Find::Key => true,
        Find::Spare => false,
        Find::Nowhere => false,
    }
}
