//! Bindings that are put and read.
ghost use Rattle.std.specs.Prelude.{◌≡◌, ◌+◌, ◌<◌, ◌≤◌, cond};
ghost use Rattle.model_core.specs.declared.graph.Value.TheVariants.{Block};
ghost use Rattle.weak_laws.specs.Tables.Performing.{refusals, full_of, writings, is_spared};
ghost use Rattle.weak_laws.specs.Tables.Stages.{held_in};
ghost use Rattle.weak_tables.specs.Frames.{Keeps, Passes, Spends};
ghost use Rattle.weak_tables.specs.Held.{HoldsTable};
ghost use Rattle.weak_tables.specs.Walks.{CellAnswers, GrownAt, LinksCell, PlacedAt};
ghost use Rattle.weak_tables.specs.Tables.{GetsAt, PutsAt};

use crate::find::Find;
use crate::machine::{
    CELL, EPHE, LOOKED, Machine, NEXT, OWN, load, perform, perform_between, perform_plain, store,
};
use crate::replies::{is_empty, is_full};
use crate::searching::{bucket_of, look_up, search};
use crate::taking::clear;
use model_core::command::Command;
use model_core::label::Label;
use model_core::reply::Reply;
use std::sync::Wait;

// Makes a cell without a key: its ephemeron in register 8 and its node in register 9. Tells whether neither was refused.
fn make_cell<M: Machine, R: Wait>(m: &mut M, rt: &R) -> bool
    requires labels { 2 ≤ M.labels_left m.old }
    requires room { 1 ≤ M.ephes_room m.old }
    ensures spends { Spends M.sizes M.labels_left M.ephes_room 2 1 m.old m.new }
    ensures refused { refusals (M.front m.new) ≡ refusals (M.front m.old) + cond result 0 1 }
    ensures written { writings (M.front m.new) ≡ writings (M.front m.old) }
    ensures made { CellAnswers (M.sizes m.old) (M.front m.old) (M.front m.new) result }
{
    let ephe = perform(m, rt, Command::Ephe { dst: EPHE, keys: 1 });
    if is_full(&ephe) {
        return false;
    }
    let node = perform(
        m,
        rt,
        Command::Alloc {
            dst: CELL,
            tag: 0,
            fields: 2,
        },
    );
    !is_full(&node)
}

// Puts the cell in registers 8 and 9 before the others of a bucket.
fn link_cell<M: Machine, R: Wait>(m: &mut M, rt: &R, table: u8, index: u16)
    requires few { table < 8 }
    ensures passes { Passes M.sizes M.front M.labels_left M.ephes_room m.old m.new }
    ensures links { LinksCell (M.sizes m.old) (M.front m.old) (M.front m.new) table index }
{
    let _first = store(m, rt, CELL, OWN, EPHE);
    let _head = load(m, rt, LOOKED, table, index);
    let _second = store(m, rt, CELL, NEXT, LOOKED);
    let _linked = store(m, rt, table, index, CELL);
}

// Makes a cell without a key, and links it first into the bucket of this one. Where an allocation is refused the table
// stays as it is.
fn grow<M: Machine, R: Wait>(m: &mut M, rt: &R, table: u8, label: &Label) -> bool
    requires few { table < 8 }
    requires labels { 2 ≤ M.labels_left m.old }
    requires room { 1 ≤ M.ephes_room m.old }
    requires table { HoldsTable (M.sizes m.old) (M.front m.old) table }
    ensures spends { Spends M.sizes M.labels_left M.ephes_room 2 1 m.old m.new }
    ensures refused { refusals (M.front m.new) ≡ refusals (M.front m.old) + cond result 0 1 }
    ensures written { writings (M.front m.new) ≡ writings (M.front m.old) }
    ensures placed { GrownAt (M.sizes m.old) (M.front m.old) (M.front m.new) table label.now result }
{
    m.shows_legal();
    if !make_cell(m, rt) {
        return false;
    }
    link_cell(m, rt, table, bucket_of(label));
    true
}

// Finds the ephemeron of a key, which a register holds, or one of its bucket without a key, or makes one: register 8 holds
// it.
fn place<M: Machine, R: Wait>(m: &mut M, rt: &R, table: u8, key: u8, label: &Label) -> bool
    requires few { (table < 8) × (key < 8) }
    requires labels { 2 ≤ M.labels_left m.old }
    requires room { 1 ≤ M.ephes_room m.old }
    requires key { held_in (M.sizes m.old) (M.front m.old) key ≡ Block label.now }
    requires table { HoldsTable (M.sizes m.old) (M.front m.old) table }
    ensures spends { Spends M.sizes M.labels_left M.ephes_room 2 1 m.old m.new }
    ensures refused { refusals (M.front m.new) ≡ refusals (M.front m.old) + cond result 0 1 }
    ensures written { writings (M.front m.new) ≡ writings (M.front m.old) }
    ensures placed { PlacedAt (M.sizes m.old) (M.front m.old) (M.front m.new) table label.now result }
{
    match search(m, rt, table, key, label) {
        Find::Key => true,
        Find::Spare => true,
        Find::Nowhere => grow(m, rt, table, label),
    }
}

/// Binds the key in a register to what another holds, in the table in a third. Answers `type` exactly where the first holds
/// no label or the second nothing, and else that it is done, or `full` where an allocation was refused; then no binding was
/// put or taken. Once it is done the table binds what it bound, with this key to this datum. A cell whose key was emptied is
/// used again: one is made only where each cell of the key's bucket had a key when the call began, so that a table that is
/// used for ever doesn't grow for ever. The collector may take bindings whose key isn't reached. Registers are below 8; two
/// labels and room for one ephemeron are left. Registers 8, 9 and 10 hold nothing afterwards, but after `type`, which leaves
/// all as it was.
pub fn table_put<M: Machine, R: Wait>(m: &mut M, rt: &R, table: u8, key: u8, item: u8) -> Reply
    requires few { (table < 8) × (key < 8) × (item < 8) }
    requires labels { 2 ≤ M.labels_left m.old }
    requires room { 1 ≤ M.ephes_room m.old }
    requires table { HoldsTable (M.sizes m.old) (M.front m.old) table }
    ensures spends { Spends M.sizes M.labels_left M.ephes_room 2 1 m.old m.new }
    ensures refused { refusals (M.front m.new) ≡ refusals (M.front m.old) + full_of result }
    ensures written { writings (M.front m.new) ≡ writings (M.front m.old) }
    ensures answer { PutsAt (M.sizes m.old) (M.front m.old) (M.front m.new) table key item result }
{
    m.shows_legal();
    let Reply::Block(label) = m.show(key) else {
        return Reply::BadType;
    };
    let shown = m.show(item);
    if is_empty(&shown) {
        return Reply::BadType;
    }
    if !place(m, rt, table, key, &label) {
        clear(m, rt);
        return Reply::Full;
    }
    let _datum = perform_between(m, rt, Command::SetData { ephe: EPHE, item });
    let _named = perform_between(
        m,
        rt,
        Command::SetKey {
            ephe: EPHE,
            index: 0,
            item: key,
        },
    );
    clear(m, rt);
    Reply::Done
}

/// Reads what the table in a register binds the key in another to, into a third. Answers `type` exactly where the second
/// holds no label, `none` exactly where the key isn't bound, and then the third holds nothing, and else the datum. The
/// collector may take bindings whose key isn't reached. Registers are below 8. Registers 8, 9 and 10 hold nothing afterwards.
pub fn table_get<M: Machine, R: Wait>(m: &mut M, rt: &R, dst: u8, table: u8, key: u8) -> Reply
    requires few { (dst < 8) × (table < 8) × (key < 8) }
    requires table { HoldsTable (M.sizes m.old) (M.front m.old) table }
    ensures keeps { Keeps M.sizes M.labels_left M.ephes_room m.old m.new }
    ensures refused { refusals (M.front m.new) ≡ refusals (M.front m.old) + full_of result }
    ensures written { writings (M.front m.new) ≤ writings (M.front m.old) + is_spared dst }
    ensures answer { GetsAt (M.sizes m.old) (M.front m.old) (M.front m.new) dst table key result }
{
    m.shows_legal();
    let Reply::Block(label) = m.show(key) else {
        return Reply::BadType;
    };
    if !look_up(m, rt, table, key, &label) {
        let _none = perform_plain(m, rt, Command::Forget { dst });
        clear(m, rt);
        return Reply::Empty;
    }
    let reply = perform_plain(m, rt, Command::GetData { dst, ephe: EPHE });
    clear(m, rt);
    reply
}
