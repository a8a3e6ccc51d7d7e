//! Bindings that are put.
ghost use Rattle.std.specs.Prelude.{◌≡◌, ◌+◌, ◌<◌, ◌≤◌, Some, None, IfSome, cond};
ghost use Rattle.model_core.specs.declared.reply.Reply.TheVariants as variant;
ghost use Rattle.weak_maps.specs.Beside.{refusals_by};
ghost use Rattle.weak_maps.specs.Guards.{LeafGuards, PutGuards, SettleGuards};
ghost use Rattle.weak_maps.specs.Puts.{MakesLeaf};
ghost use Rattle.weak_maps.specs.Returns.{FollowsAt};
ghost use Rattle.weak_direct.specs.Puts.{LeafStops, PutStops, PutsAt, SettleSpends, SettleStops, Settles, TrySpends};
ghost use Rattle.weak_direct.specs.Frames.{Goes, Spends};

use crate::direct::{Direct, allocate, clear, step};
use crate::taking::{exchange, find, read_root};
use model_core::command::Command;
use model_core::label::Label;
use model_core::reply::Reply;
use weak_maps::digits::{node_index, number_of, rest_below, serial_of};
use weak_maps::replies::{is_empty, is_full, is_yes};
use weak_maps::taking::{Search, from_root};

/// Makes a leaf of the key in a register, with the datum in another, into register 10. Tells whether the allocation wasn't
/// refused. None where a command is put off.
fn make_leaf<M: Direct>(m: &mut M, key: u8, item: u8) -> Option<bool>
    requires few { (key < 8) × (item < 8) }
    requires label { 1 ≤ M.labels_left m.old }
    requires room { 1 ≤ M.ephes_room m.old }
    ensures spends { Spends M.sizes M.domain M.heap M.front M.labels_left M.ephes_room 1 1 m.old m.new }
    ensures labels { IfSome result (λ b. M.labels_left m.old ≡ M.labels_left m.new + cond b 1 0) }
    ensures refused { IfSome result (λ b. refusals_by (M.domain m.old) (M.front m.new) ≡ refusals_by (M.domain m.old) (M.front m.old) + cond b 0 1) }
    ensures guards { LeafGuards (M.sizes m.old) (M.domain m.old) (M.front m.old) (M.front m.new) key item }
    ensures made { IfSome result (λ b. MakesLeaf (M.sizes m.old) (M.domain m.old) (M.front m.old) (M.front m.new) key item b) }
    ensures stopped { result ≡ None → LeafStops (M.sizes m.old) (M.domain m.old) (M.front m.old) (M.front m.new) key item }
{
    m.shows_inside();
    let made = allocate(m, Command::Ephe { dst: 10, keys: 1 })?;
    if is_full(&made) {
        return Some(false);
    }
    let _datum = step(m, Command::SetData { ephe: 10, item })?;
    let _key = step(
        m,
        Command::SetKey {
            ephe: 10,
            index: 0,
            item: key,
        },
    )?;
    Some(true)
}

// Publishes the leaf in register 10 in the field to which a search came. None where that is put off, or another call has
// written the field.
fn publish<M: Direct>(m: &mut M, label: &Label, from: Search) -> Option<Reply>
    ensures goes { Goes M.sizes M.domain M.heap M.front M.labels_left M.ephes_room m.old m.new }
    ensures done { IfSome result (λ r. r ≡ variant.Done) }
    ensures guards { SettleGuards (M.sizes m.old) (M.domain m.old) (M.front m.old) (M.front m.new) label.now from.index from.rest from.steps None }
    ensures settled { IfSome result (Settles (M.sizes m.old) (M.domain m.old) (M.front m.old) (M.front m.new) label.now from.index from.rest from.steps None) }
    ensures stopped { result ≡ None → SettleStops (M.sizes m.old) (M.domain m.old) (M.front m.old) (M.front m.new) label.now from.index from.rest from.steps None }
{
    m.shows_inside();
    let won = exchange(m, from.index, 10)?;
    if !is_yes(&won) {
        return None;
    }
    clear(m);
    Some(Reply::Done)
}

// Puts the leaf of another key, to which a search came, one block deeper. Answers `full` where the allocation of that block was
// refused, and else none: the key's way goes on there.
fn deepen<M: Direct>(m: &mut M, label: &Label, from: Search, other: Label) -> Option<Reply>
    requires label { 1 ≤ M.labels_left m.old }
    ensures spends { Spends M.sizes M.domain M.heap M.front M.labels_left M.ephes_room 1 0 m.old m.new }
    ensures labels { IfSome result (λ r. M.labels_left m.old ≡ M.labels_left m.new) }
    ensures refused { IfSome result (λ r. refusals_by (M.domain m.old) (M.front m.new) ≡ refusals_by (M.domain m.old) (M.front m.old) + 1) }
    ensures full { IfSome result (λ r. r ≡ variant.Full) }
    ensures guards { SettleGuards (M.sizes m.old) (M.domain m.old) (M.front m.old) (M.front m.new) label.now from.index from.rest from.steps (Some other) }
    ensures settled { IfSome result (Settles (M.sizes m.old) (M.domain m.old) (M.front m.old) (M.front m.new) label.now from.index from.rest from.steps (Some other)) }
    ensures stopped { result ≡ None → SettleStops (M.sizes m.old) (M.domain m.old) (M.front m.old) (M.front m.new) label.now from.index from.rest from.steps (Some other) }
{
    m.shows_inside();
    let _serial = serial_of(label);
    let _other_serial = serial_of(&other);
    let rest = rest_below(number_of(m.domains(), &other), from.steps);
    let made = allocate(
        m,
        Command::Alloc {
            dst: 11,
            tag: 0,
            fields: 32,
        },
    )?;
    if is_full(&made) {
        clear(m);
        return Some(Reply::Full);
    }
    let _leaf = step(
        m,
        Command::Store {
            block: 11,
            index: node_index(rest),
            item: 9,
        },
    )?;
    let _deeper = exchange(m, from.index, 11)?;
    None
}

// Publishes the leaf in register 10 in the field to which a search came, or makes room there where a leaf of another key is in
// the way.
fn settle<M: Direct>(m: &mut M, label: &Label, from: Search) -> Option<Reply>
    requires label { 1 ≤ M.labels_left m.old }
    ensures spends { Spends M.sizes M.domain M.heap M.front M.labels_left M.ephes_room 1 0 m.old m.new }
    ensures counts { IfSome result (SettleSpends M.domain M.front M.labels_left m.old m.new) }
    ensures guards { SettleGuards (M.sizes m.old) (M.domain m.old) (M.front m.old) (M.front m.new) label.now from.index from.rest from.steps from.other }
    ensures settled { IfSome result (Settles (M.sizes m.old) (M.domain m.old) (M.front m.old) (M.front m.new) label.now from.index from.rest from.steps from.other) }
    ensures stopped { result ≡ None → SettleStops (M.sizes m.old) (M.domain m.old) (M.front m.old) (M.front m.new) label.now from.index from.rest from.steps from.other }
{
    match from.other {
        None => publish(m, label, from),
        Some(other) => deepen(m, label, from, other),
    }
}

/// Binds the key in a register to what another holds, in the map in a third, whose leaves each stand on their key's way.
/// Answers `type` exactly where the key's register holds no label or the other nothing, and then changes nothing; `full` where
/// an allocation was refused: then no binding was changed; and else that it is done: an entry of the call bound the key, and
/// changed no other key. Registers are below 8. Registers 8 to 11 are used between. Other domains may use the map meanwhile,
/// by its calls. Each entry of the call respects the map, as long as the others' entries before it did. None where a command is
/// put off, another call won the field, or a leaf of another key was in the way, for which the call then has made room: then no
/// binding was changed, and the call may be asked anew.
pub fn map_put<M: Direct>(m: &mut M, map: u8, key: u8, item: u8) -> Option<Reply>
    requires few { (map < 8) × (key < 8) × (item < 8) }
    requires left { (2 ≤ M.labels_left m.old) × (1 ≤ M.ephes_room m.old) }
    ensures spends { Spends M.sizes M.domain M.heap M.front M.labels_left M.ephes_room 2 1 m.old m.new }
    ensures counts { IfSome result
        (TrySpends (M.domain m.old) (M.labels_left m.old) (M.labels_left m.new) (M.front m.old) (M.front m.new)) }
    ensures guards { PutGuards (M.sizes m.old) (M.domain m.old) (M.front m.old) (M.front m.new) map }
    ensures answer { IfSome result
        (PutsAt (M.sizes m.old) (M.domain m.old) (M.front m.old) (M.front m.new) map key item) }
    ensures follows { FollowsAt (M.sizes m.old) (M.domain m.old) (M.front m.old) (M.front m.new) map }
    ensures stopped { result ≡ None → PutStops (M.sizes m.old) (M.domain m.old) (M.front m.old) (M.front m.new) map }
{
    m.shows_inside();
    let Reply::Block(label) = m.show(key) else {
        return Some(Reply::BadType);
    };
    let datum = m.show(item);
    if is_empty(&datum) {
        return Some(Reply::BadType);
    }
    let made = make_leaf(m, key, item)?;
    if !made {
        clear(m);
        return Some(Reply::Full);
    }
    let number = number_of(m.domains(), &label);
    let first = from_root(number);
    let at = read_root(m, map, first.index)?;
    let from = find(m, key, &label, first, at)?;
    settle(m, &label, from)
}
