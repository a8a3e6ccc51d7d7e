//! Bindings that are put.
ghost use Rattle.std.specs.Prelude.{◌≡◌, ◌+◌, ◌<◌, ◌≤◌};
ghost use Rattle.model_core.specs.declared.graph.Value.TheVariants.{Block};
ghost use Rattle.model_core.specs.declared.command.Command.TheVariants as command;
ghost use Rattle.model_core.specs.declared.reply.Reply as replies;
ghost use Rattle.model_core.specs.History.{IsPrefix};
ghost use Rattle.weak_laws.specs.Maps.Calls.{PerformedBy};
ghost use Rattle.weak_laws.specs.Maps.Tries.{node_width};
ghost use Rattle.weak_maps.specs.Beside.{refusals_by, writings_by};
ghost use Rattle.weak_maps.specs.Puts.{FillsLeaf, MakesRoom, Publishes};
ghost use Rattle.weak_maps.specs.Crowds.{FullAt, PutCounts};
ghost use Rattle.weak_maps.specs.Guards.{PutGuards, RoomGuards, SettleGuards};
ghost use Rattle.weak_maps.specs.Returns.{FollowsAt, PutsAt};
ghost use Rattle.weak_maps.specs.Settles.{rooms_after, Settles, SettlesAlone, TryRefuses};
ghost use Rattle.weak_maps.specs.Frames.{Leaves, Makes, Puts, Stays};

use crate::digits::{node_index, number_of, rest_below, serial_of};
use crate::machine::{Machine, perform};
use crate::replies::{is_empty, is_full, is_yes};
use crate::taking::{Search, clear, exchange, find, from_root, read_again};
use model_core::command::Command;
use model_core::label::Label;
use model_core::reply::Reply;
use std::sync::Wait;

/// What a try of a put led to.
#[derive(Clone, Copy, Debug, PartialEq, Eq)]
pub enum Try {
    /// The call is over, with this answer.
    Over(Reply),
    /// The call goes on from the same field.
    Again {
        /// What the field holds now.
        shows: Reply,
        /// How many blocks more may be made.
        rooms: u8,
    },
}

/// Makes a leaf of the key in a register, with the datum in another, into register 10. Tells whether the allocation wasn't
/// refused.
pub fn make_leaf<M: Machine, R: Wait>(m: &mut M, rt: &R, key: u8, item: u8) -> bool
    requires few { (key < 8) × (item < 8) }
    requires label { 1 ≤ M.labels_left m.old }
    requires room { 1 ≤ M.ephes_room m.old }
    ensures makes { Makes M.sizes M.domain M.heap M.front M.labels_left m.old m.new result }
    ensures room { M.ephes_room m.old ≤ M.ephes_room m.new + 1 }
    ensures made { FillsLeaf (M.sizes m.old) (M.domain m.old) (M.front m.old) (M.front m.new) key item result }
{
    m.shows_legal();
    let made = perform(m, rt, Command::Ephe { dst: 10, keys: 1 });
    if is_full(&made) {
        return false;
    }
    let _datum = perform(m, rt, Command::SetData { ephe: 10, item });
    let _key = perform(
        m,
        rt,
        Command::SetKey {
            ephe: 10,
            index: 0,
            item: key,
        },
    );
    true
}

// Puts the leaf in register 10 into a field of the block in register 8, where that holds what register 9 holds. Tells whether
// it did.
fn publish<M: Machine, R: Wait>(m: &mut M, rt: &R, index: u16) -> bool
    ensures leaves { Leaves M.sizes M.domain M.heap M.front M.labels_left M.ephes_room m.old m.new }
    ensures once { (r : replies.Reply) × PerformedBy (M.sizes m.old) (M.domain m.old) (M.front m.old) (M.front m.new) (command.Cas 8 index 9 10) r }
    ensures published { Publishes (M.sizes m.old) (M.domain m.old) (M.front m.old) (M.front m.new) index result }
{
    m.shows_legal();
    let won = exchange(m, rt, index);
    is_yes(&won)
}

// Puts the leaf of another key that register 9 holds one block deeper, into this field there, where the field of the block in
// register 8 still holds it. Tells whether the allocation of that block wasn't refused. Register 11 is used between.
fn make_room<M: Machine, R: Wait>(m: &mut M, rt: &R, index: u16, digit: u16) -> bool
    requires small { digit < node_width }
    requires label { 1 ≤ M.labels_left m.old }
    ensures makes { Makes M.sizes M.domain M.heap M.front M.labels_left m.old m.new result }
    ensures room { M.ephes_room m.old ≤ M.ephes_room m.new }
    ensures guards { RoomGuards (M.sizes m.old) (M.domain m.old) (M.front m.old) (M.front m.new) index digit }
    ensures made { MakesRoom (M.sizes m.old) (M.domain m.old) (M.front m.old) (M.front m.new) index digit result }
{
    m.shows_legal();
    let made = perform(
        m,
        rt,
        Command::Alloc {
            dst: 11,
            tag: 0,
            fields: 32,
        },
    );
    if is_full(&made) {
        return false;
    }
    let _leaf = perform(
        m,
        rt,
        Command::Store {
            block: 11,
            index: digit,
            item: 9,
        },
    );
    let _deeper = perform(
        m,
        rt,
        Command::Cas {
            block: 8,
            index,
            expected: 9,
            item: 11,
        },
    );
    true
}

// Publishes the leaf in register 10 in the field to which a search came, so many blocks below the root, or makes room there
// where another key's leaf is in the way. So many blocks may be made.
fn settle<M: Machine, R: Wait>(
    m: &mut M,
    rt: &R,
    label: &Label,
    from: Search,
    level: u8,
    rooms: u8,
) -> Try
    requires labels { rooms ≤ M.labels_left m.old }
    ensures stays { Stays M.sizes M.domain M.heap m.old m.new }
    ensures labels { M.labels_left m.old + rooms_after rooms result ≡ M.labels_left m.new + rooms }
    ensures fewer { rooms_after rooms result ≤ rooms }
    ensures room { M.ephes_room m.old ≤ M.ephes_room m.new }
    ensures refused { TryRefuses rooms from.other (refusals_by (M.domain m.old) (M.front m.old)) (refusals_by (M.domain m.old) (M.front m.new)) result }
    ensures written { writings_by (M.domain m.old) (M.front m.new) ≡ writings_by (M.domain m.old) (M.front m.old) }
    ensures grows { IsPrefix (M.front m.old) (M.front m.new) }
    ensures guards { SettleGuards (M.sizes m.old) (M.domain m.old) (M.front m.old) (M.front m.new) label.now from.index from.rest level from.other }
    ensures settled { Settles (M.sizes m.old) (M.domain m.old) (M.front m.old) (M.front m.new) label.now from.index from.rest level from.other result }
    ensures alone { SettlesAlone (M.sizes m.old) (M.domain m.old) (M.front m.old) (M.front m.new) label.now from.index from.rest level from.other rooms result }
{
    m.shows_legal();
    let _serial = serial_of(label);
    let Some(other) = from.other else {
        if publish(m, rt, from.index) {
            clear(m, rt);
            return Try::Over(Reply::Done);
        }
        let shows = read_again(m, rt, from.index);
        return Try::Again { shows, rooms };
    };
    let _other_serial = serial_of(&other);
    if rooms == 0 {
        clear(m, rt);
        return Try::Over(Reply::Full);
    }
    let rest = rest_below(number_of(m.domains(), &other), level);
    if !make_room(m, rt, from.index, node_index(rest)) {
        clear(m, rt);
        return Try::Over(Reply::Full);
    }
    let shows = read_again(m, rt, from.index);
    Try::Again {
        shows,
        rooms: rooms - 1,
    }
}

/// Binds the key in a register to what another holds, in the map in a third, whose leaves each stand on their key's way.
/// Answers `type` exactly where the key's register holds no label or the other nothing, and then changes nothing; `full` where
/// an allocation was refused, or where none was, a leaf and six blocks for room were made, and another key's leaf was in the
/// way still, as it may be only where other domains use the map meanwhile: then no binding was changed; and else that it is
/// done: an entry of the call bound the key, and changed no other key, and no allocation was refused. Registers are below 8.
/// Registers 8 to 11 hold nothing afterwards, but for `type`. Other domains may use the map meanwhile, by its calls. Where one
/// of them wins a field, the call tries again. Each entry of the call respects the map, as long as the others' entries before it
/// did.
pub fn map_put<M: Machine, R: Wait>(m: &mut M, rt: &R, map: u8, key: u8, item: u8) -> Reply
    requires few { (map < 8) × (key < 8) × (item < 8) }
    requires labels { 7 ≤ M.labels_left m.old }
    requires room { 1 ≤ M.ephes_room m.old }
    ensures puts { Puts M.sizes M.domain M.heap M.front M.labels_left M.ephes_room m.old m.new PutCounts result }
    ensures guards { PutGuards (M.sizes m.old) (M.domain m.old) (M.front m.old) (M.front m.new) map }
    ensures answer { PutsAt (M.sizes m.old) (M.domain m.old) (M.front m.old) (M.front m.new) map key item result }
    ensures full { FullAt (M.sizes m.old) (M.domain m.old) (M.front m.old) (M.front m.new) map key result }
    ensures follows { FollowsAt (M.sizes m.old) (M.domain m.old) (M.front m.old) (M.front m.new) map }
{
    m.shows_legal();
    let Reply::Block(label) = m.show(key) else {
        return Reply::BadType;
    };
    let datum = m.show(item);
    if is_empty(&datum) {
        return Reply::BadType;
    }
    if !make_leaf(m, rt, key, item) {
        clear(m, rt);
        return Reply::Full;
    }
    let number = number_of(m.domains(), &label);
    let _root = perform(m, rt, Command::Copy { dst: 8, src: map });
    let mut from = from_root(number);
    let mut at = read_again(m, rt, from.index);
    let mut level = 0u8;
    let mut rooms = 6u8;
    'tries: for _ in rt.forever() {
        m.shows_legal();
        from = find(m, rt, key, &label, from, at);
        level = level.saturating_add(from.steps);
        match settle(m, rt, &label, from, level, rooms) {
            Try::Over(answer) => return answer,
            Try::Again { shows, rooms: left } => {
                at = shows;
                rooms = left;
            }
        }
    }
    unreachable!()
}
