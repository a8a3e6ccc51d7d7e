//! How many bindings a table has.
ghost use Rattle.std.specs.Prelude.{◌≡◌, ◌<◌, ◌≤◌};
ghost use Rattle.weak_tables.specs.Frames.{Passes};
ghost use Rattle.weak_tables.specs.Held.{HoldsTable};
ghost use Rattle.weak_tables.specs.Walks.{CountedAt};
ghost use Rattle.weak_tables.specs.Tables.{CountsAt};

use crate::machine::{CELL, EPHE, Machine, NEXT, OWN, load, perform_between};
use crate::replies::{is_block, one};
use crate::taking::clear;
use model_core::command::Command;
use model_core::reply::Reply;
use std::sync::Wait;

// Counts the full keys in a bucket, each as it is looked at. It has fewer cells than labels were given out.
fn count_bucket<M: Machine, R: Wait>(m: &mut M, rt: &R, table: u8, index: u16) -> u32
    requires few { (table < 8) × (index < 64) }
    requires table { HoldsTable (M.sizes m.old) (M.front m.old) table }
    ensures passes { Passes M.sizes M.front M.labels_left M.ephes_room m.old m.new }
    ensures counted { CountedAt (M.sizes m.old) (M.front m.old) (M.front m.new) table index result }
{
    m.shows_legal();
    let mut count: u32 = 0;
    let mut at = load(m, rt, CELL, table, index);
    'cells: for _ in 0..u32::MAX {
        if !is_block(&at) {
            return count;
        }
        let _ephe = load(m, rt, EPHE, CELL, OWN);
        let full = perform_between(
            m,
            rt,
            Command::CheckKey {
                ephe: EPHE,
                index: 0,
            },
        );
        count += one(&full);
        at = load(m, rt, CELL, CELL, NEXT);
    }
    unreachable!()
}

/// The number of bindings of the table in a register, at some moment of the call: the collector may take bindings whose key
/// isn't reached while it goes on. The register is below 8. Registers 8, 9 and 10 hold nothing afterwards.
pub fn table_count<M: Machine, R: Wait>(m: &mut M, rt: &R, table: u8) -> u32
    requires few { table < 8 }
    requires table { HoldsTable (M.sizes m.old) (M.front m.old) table }
    ensures passes { Passes M.sizes M.front M.labels_left M.ephes_room m.old m.new }
    ensures counts { CountsAt (M.sizes m.old) (M.front m.old) (M.front m.new) table result }
{
    m.shows_legal();
    let mut count: u32 = 0;
    'buckets: for index in 0..64u16 {
        count += count_bucket(m, rt, table, index);
    }
    clear(m, rt);
    count
}
