//! The calls on a cache.
ghost use Rattle.std.specs.Prelude.{◌≡◌, ◌+◌, ◌<◌, ◌≤◌, ℕ, Some};
ghost use Rattle.model_core.specs.declared.command.Command.TheVariants as command;
ghost use Rattle.model_core.specs.declared.graph.Value.TheVariants.{Block};
ghost use Rattle.weak_laws.specs.Tables.Performing.{is_spared};
ghost use Rattle.weak_laws.specs.Maps.Calls.{PerformedBy};
ghost use Rattle.weak_cache.specs.Calls.{GetsAt, MakeReturns, PutsAt, TakesAt};
ghost use Rattle.weak_cache.specs.Counts.{PutCounts};
ghost use Rattle.weak_cache.specs.Passes.{Begun, Cleared, CutsOut, Draws, DrawsBehind, FindsLeaf, MovesFirst, Passes, Tells};
ghost use Rattle.weak_maps.specs.Frames.{Allocates, Leaves, Puts, Reads};

use model_core::command::Command;
use model_core::label::Label;
use model_core::reply::Reply;
use std::sync::Wait;
use weak_maps::machine::{Machine, perform};
use weak_maps::putting::make_leaf;
use weak_maps::replies::{is_block, is_empty, is_this};

/// Makes a cache of so many slots, into a register below 8. It has nothing. Answers its block, or `full` where the allocation
/// was refused: then the register is as before. One label is left.
pub fn cache_make<M: Machine, R: Wait>(m: &mut M, rt: &R, dst: u8, size: u16) -> Reply
    requires few { (dst < 8) × (1 ≤ size) × (size ≤ 1022) }
    requires labels { 1 ≤ M.labels_left m.old }
    ensures allocates { Allocates M.sizes M.domain M.heap M.front M.labels_left M.ephes_room m.old m.new dst result }
    ensures made { MakeReturns (M.sizes m.old) (M.domain m.old) (M.front m.old) (M.front m.new) dst size result }
{
    m.shows_legal();
    perform(
        m,
        rt,
        Command::Alloc {
            dst,
            tag: 0,
            fields: size,
        },
    )
}

// Whether a register, which holds what a reply shows, holds a leaf of a key. Register 11 is used between.
fn is_leaf_of<M: Machine, R: Wait>(
    m: &mut M,
    rt: &R,
    slot: u8,
    shows: &Reply,
    label: &Label,
) -> bool
    requires few { slot < 16 }
    ensures leaves { Leaves M.sizes M.domain M.heap M.front M.labels_left M.ephes_room m.old m.new }
    ensures told { Tells (M.sizes m.old) (M.domain m.old) (M.front m.old) (M.front m.new) slot shows.now label.now result }
{
    if !is_block(shows) {
        return false;
    }
    let found = perform(
        m,
        rt,
        Command::GetKey {
            dst: 11,
            ephe: slot,
            index: 0,
        },
    );
    is_this(&found, label)
}

// Reads a slot of the cache in register 13 into another from 9 on.
fn read_slot<M: Machine, R: Wait>(m: &mut M, rt: &R, dst: u8, index: u16) -> Reply
    requires few { (9 ≤ dst) × (dst < 16) }
    ensures leaves { Leaves M.sizes M.domain M.heap M.front M.labels_left M.ephes_room m.old m.new }
    ensures read { PerformedBy (M.sizes m.old) (M.domain m.old) (M.front m.old) (M.front m.new) (command.Load dst 13 index) result }
{
    perform(
        m,
        rt,
        Command::Load {
            dst,
            src: 13,
            index,
        },
    )
}

// Looks for the leaf of the key in register 12 in the cache in register 13. Where there is one register 10 holds it, and its
// slot is told.
fn find<M: Machine, R: Wait>(m: &mut M, rt: &R, size: u16, label: &Label) -> Option<u16>
    ensures leaves { Leaves M.sizes M.domain M.heap M.front M.labels_left M.ephes_room m.old m.new }
    ensures inner { (i : ℕ) → result ≡ Some i → i < size }
    ensures found { FindsLeaf (M.sizes m.old) (M.domain m.old) (M.front m.old) (M.front m.new) label.now size result }
{
    m.shows_legal();
    'slots: for index in 0..size {
        let shows = read_slot(m, rt, 10, index);
        if is_leaf_of(m, rt, 10, &shows, label) {
            return Some(index);
        }
    }
    None
}

// Puts what register 10 holds into a slot of the cache in register 13, and takes what that held. Tells whether it wasn't the
// leaf of the key in register 12.
fn pass<M: Machine, R: Wait>(m: &mut M, rt: &R, label: &Label, index: u16) -> bool
    ensures leaves { Leaves M.sizes M.domain M.heap M.front M.labels_left M.ephes_room m.old m.new }
    ensures passed { Passes (M.sizes m.old) (M.domain m.old) (M.front m.old) (M.front m.new) label.now index result }
{
    m.shows_legal();
    let shows = read_slot(m, rt, 9, index);
    let _done = perform(
        m,
        rt,
        Command::Store {
            block: 13,
            index,
            item: 10,
        },
    );
    if is_leaf_of(m, rt, 9, &shows, label) {
        return false;
    }
    let _moved = perform(m, rt, Command::Copy { dst: 10, src: 9 });
    true
}

// Puts the leaf in register 10 first in the cache in register 13. Those before that of its key, which register 12 holds, go
// one slot on, and that one goes, or the last.
fn put_first<M: Machine, R: Wait>(m: &mut M, rt: &R, size: u16, label: &Label)
    ensures leaves { Leaves M.sizes M.domain M.heap M.front M.labels_left M.ephes_room m.old m.new }
    ensures moved { MovesFirst (M.sizes m.old) (M.domain m.old) (M.front m.old) (M.front m.new) label.now size }
{
    m.shows_legal();
    'slots: for index in 0..size {
        if !pass(m, rt, label, index) {
            return;
        }
    }
}

// Puts what a slot of the cache in register 13 holds into the slot before it.
fn draw<M: Machine, R: Wait>(m: &mut M, rt: &R, index: u16)
    requires few { index < 65535 }
    ensures leaves { Leaves M.sizes M.domain M.heap M.front M.labels_left M.ephes_room m.old m.new }
    ensures drawn { Draws (M.sizes m.old) (M.domain m.old) (M.front m.old) (M.front m.new) index }
{
    m.shows_legal();
    let _shows = read_slot(m, rt, 10, index + 1);
    let _done = perform(
        m,
        rt,
        Command::Store {
            block: 13,
            index,
            item: 10,
        },
    );
}

// Puts what each slot behind one of the cache in register 13 holds into the slot before it.
fn draw_behind<M: Machine, R: Wait>(m: &mut M, rt: &R, size: u16, from: u16)
    requires inner { from < size }
    ensures leaves { Leaves M.sizes M.domain M.heap M.front M.labels_left M.ephes_room m.old m.new }
    ensures drawn { DrawsBehind (M.sizes m.old) (M.domain m.old) (M.front m.old) (M.front m.new) from size }
{
    m.shows_legal();
    'behind: for passed in 0..size - 1 - from {
        draw(m, rt, from + passed);
    }
}

// Takes a slot out of the cache in register 13: those behind it go one forward, and the last holds 0.
fn cut_out<M: Machine, R: Wait>(m: &mut M, rt: &R, size: u16, from: u16)
    requires inner { from < size }
    ensures leaves { Leaves M.sizes M.domain M.heap M.front M.labels_left M.ephes_room m.old m.new }
    ensures cut { CutsOut (M.sizes m.old) (M.domain m.old) (M.front m.old) (M.front m.new) from size }
{
    m.shows_legal();
    draw_behind(m, rt, size, from);
    let _zero = perform(m, rt, Command::PutInt { dst: 10, value: 0 });
    let _done = perform(
        m,
        rt,
        Command::Store {
            block: 13,
            index: size - 1,
            item: 10,
        },
    );
}

// Copies the key in a register into register 12, and the cache in another into register 13.
fn begin<M: Machine, R: Wait>(m: &mut M, rt: &R, cache: u8, key: u8)
    requires few { (cache < 8) × (key < 8) }
    ensures leaves { Leaves M.sizes M.domain M.heap M.front M.labels_left M.ephes_room m.old m.new }
    ensures begun { Begun (M.sizes m.old) (M.domain m.old) (M.front m.old) (M.front m.new) cache key }
{
    let _key = perform(m, rt, Command::Copy { dst: 12, src: key });
    let _cache = perform(
        m,
        rt,
        Command::Copy {
            dst: 13,
            src: cache,
        },
    );
}

// Empties the registers that the calls use between, that of the key last.
fn clear<M: Machine, R: Wait>(m: &mut M, rt: &R)
    ensures leaves { Leaves M.sizes M.domain M.heap M.front M.labels_left M.ephes_room m.old m.new }
    ensures cleared { Cleared (M.sizes m.old) (M.domain m.old) (M.front m.old) (M.front m.new) }
{
    let _nine = perform(m, rt, Command::Forget { dst: 9 });
    let _ten = perform(m, rt, Command::Forget { dst: 10 });
    let _eleven = perform(m, rt, Command::Forget { dst: 11 });
    let _cache = perform(m, rt, Command::Forget { dst: 13 });
    let _key = perform(m, rt, Command::Forget { dst: 12 });
}

/// Reads the value that the cache in a register has of the key in another, into a third, and makes that key the last used.
/// Answers `type` exactly where the second holds no label, and then changes nothing. Else it answers what the cache had of the
/// key when the call began, which the third register holds afterwards: a value, or `none` and nothing. A slot loses what it has
/// only where its key is outside reach, and isn't this one, and no other block is written that was there. No other domain uses
/// the cache meanwhile. Registers are below 8. Registers 9 to 13 hold nothing afterwards, but for `type`.
pub fn cache_get<M: Machine, R: Wait>(
    m: &mut M,
    rt: &R,
    dst: u8,
    cache: u8,
    size: u16,
    key: u8,
) -> Reply
    requires few { (dst < 8) × (cache < 8) × (key < 8) }
    ensures reads { Reads M.sizes M.domain M.heap M.front M.labels_left M.ephes_room m.old m.new (is_spared dst) }
    ensures answer { GetsAt (M.sizes m.old) (M.domain m.old) (M.front m.old) (M.front m.new) dst cache size key result }
{
    m.shows_legal();
    let Reply::Block(label) = m.show(key) else {
        return Reply::BadType;
    };
    begin(m, rt, cache, key);
    let Some(_slot) = find(m, rt, size, &label) else {
        let _none = perform(m, rt, Command::Forget { dst });
        clear(m, rt);
        return Reply::Empty;
    };
    let value = perform(m, rt, Command::GetData { dst, ephe: 10 });
    put_first(m, rt, size, &label);
    clear(m, rt);
    value
}

/// Takes the key in a register out of the cache in another: the value that the cache had of it goes into a third, and the keys
/// behind it go one slot forward. Answers `type` exactly where the first holds no label, and then changes nothing. Else it
/// answers what the cache had of the key when the call began, which the third register holds afterwards: a value, or `none` and
/// nothing. A slot loses what it has only where its key is outside reach, and no other block is written that was there. No
/// other domain uses the cache meanwhile. Registers are below 8. Registers 9 to 13 hold nothing afterwards, but for `type`.
pub fn cache_take<M: Machine, R: Wait>(
    m: &mut M,
    rt: &R,
    dst: u8,
    cache: u8,
    size: u16,
    key: u8,
) -> Reply
    requires few { (dst < 8) × (cache < 8) × (key < 8) }
    ensures reads { Reads M.sizes M.domain M.heap M.front M.labels_left M.ephes_room m.old m.new (is_spared dst) }
    ensures answer { TakesAt (M.sizes m.old) (M.domain m.old) (M.front m.old) (M.front m.new)
        dst cache size key result }
{
    m.shows_legal();
    let Reply::Block(label) = m.show(key) else {
        return Reply::BadType;
    };
    begin(m, rt, cache, key);
    let Some(slot) = find(m, rt, size, &label) else {
        let _none = perform(m, rt, Command::Forget { dst });
        clear(m, rt);
        return Reply::Empty;
    };
    let value = perform(m, rt, Command::GetData { dst, ephe: 10 });
    cut_out(m, rt, size, slot);
    clear(m, rt);
    value
}

/// Puts what a register holds into the cache in another as the value of the key in a third, and makes that key the last used:
/// the others go one slot back, but for those behind a slot that the key had, which goes. Else the last goes. Answers `type`
/// exactly where the key's register holds no label or the value's nothing, and then changes nothing; `full` where the
/// allocation was refused, and then the cache has what it had; else that it is done. A slot loses what it has only where its
/// key is outside reach, and isn't this one, and no other block is written that was there. No other domain uses the cache
/// meanwhile. Registers are below 8. Registers 9 to 13 hold nothing afterwards, but for `type`.
pub fn cache_put<M: Machine, R: Wait>(
    m: &mut M,
    rt: &R,
    cache: u8,
    size: u16,
    key: u8,
    item: u8,
) -> Reply
    requires few { (cache < 8) × (key < 8) × (item < 8) }
    requires labels { 1 ≤ M.labels_left m.old }
    requires room { 1 ≤ M.ephes_room m.old }
    ensures puts { Puts M.sizes M.domain M.heap M.front M.labels_left M.ephes_room m.old m.new PutCounts result }
    ensures answer { PutsAt (M.sizes m.old) (M.domain m.old) (M.front m.old) (M.front m.new)
        cache size key item result }
{
    m.shows_legal();
    let Reply::Block(label) = m.show(key) else {
        return Reply::BadType;
    };
    let value = m.show(item);
    if is_empty(&value) {
        return Reply::BadType;
    }
    begin(m, rt, cache, key);
    if !make_leaf(m, rt, key, item) {
        clear(m, rt);
        return Reply::Full;
    }
    put_first(m, rt, size, &label);
    clear(m, rt);
    Reply::Done
}
