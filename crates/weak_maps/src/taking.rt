//! Bindings that are taken out.
ghost use Rattle.std.specs.Prelude.{◌≡◌, ◌<◌, ◌/◌, ◌%◌};
ghost use Rattle.model_core.specs.declared.command.Command.TheVariants as command;
ghost use Rattle.model_core.specs.declared.graph.Value.TheVariants.{Block};
ghost use Rattle.weak_laws.specs.Maps.Calls.{PerformedBy};
ghost use Rattle.weak_laws.specs.Tables.Performing.{full_of};
ghost use Rattle.weak_laws.specs.Maps.Tries.{root_width};
ghost use Rattle.weak_maps.specs.Fields.{Cleared, Finds};
ghost use Rattle.weak_maps.specs.Guards.{TakeGuards};
ghost use Rattle.weak_maps.specs.Puts.{FindsField, KeepsLeaf};
ghost use Rattle.weak_maps.specs.Returns.{FollowsAt, TakesAt};
ghost use Rattle.weak_maps.specs.Walks.{OwnQuiet};
ghost use Rattle.weak_maps.specs.Frames.{Leaves};

use crate::digits::{node_index, number_of, root_index};
use crate::machine::{Machine, perform};
use crate::replies::{is_block, is_other_kind, is_this, is_yes, other_than};
use model_core::command::Command;
use model_core::label::Label;
use model_core::reply::Reply;
use std::sync::Wait;

/// Where a search of a key's field has come to.
#[derive(Clone, Copy, Debug, PartialEq, Eq)]
pub struct Search {
    /// The field's index in the block that register 8 holds.
    pub index: u16,
    /// The number whose digits are the rest of the key's way.
    pub rest: u64,
    /// How many blocks the search came down.
    pub steps: u8,
    /// Whether register 9 holds a leaf of the key.
    pub mine: bool,
    /// The key of a leaf of another key that register 9 holds.
    pub other: Option<Label>,
}

/// Where a search of a key of this number begins: at a field of the root.
pub fn from_root(number: u64) -> Search
    ensures index { result.index ≡ number % root_width }
    ensures rest { result.rest ≡ number / root_width }
{
    Search {
        index: root_index(number),
        rest: number / 512,
        steps: 0,
        mine: false,
        other: None,
    }
}

// Goes on from a field on a key's way, whose block is in register 8 and what it held in register 9, to the one at which the
// way ends. Register 11 is used between.
pub(crate) fn find<M: Machine, R: Wait>(
    m: &mut M,
    rt: &R,
    key: u8,
    label: &Label,
    from: Search,
    field: Reply,
) -> Search
    requires few { key < 8 }
    ensures leaves { Leaves M.sizes M.domain M.heap M.front M.labels_left M.ephes_room m.old m.new }
    ensures quiet { OwnQuiet (M.sizes m.old) (M.domain m.old) (M.front m.old) (M.front m.new) }
    ensures leaf { KeepsLeaf (M.sizes m.old) (M.domain m.old) (M.front m.old) (M.front m.new) key label.now from.index from.rest field }
    ensures field { FindsField (M.sizes m.old) (M.domain m.old) (M.front m.old) (M.front m.new) key label.now from.index from.rest field result.index result.rest result.steps result.other }
    ensures found { Finds (M.sizes m.old) (M.domain m.old) (M.front m.old) (M.front m.new) key label.now from.index from.rest field result.index result.rest result.mine }
{
    m.shows_legal();
    let mut index = from.index;
    let mut rest = from.rest;
    let mut steps = 0u8;
    let mut at = field;
    'levels: for _ in 0..7u8 {
        if !is_block(&at) {
            break;
        }
        let found = perform(
            m,
            rt,
            Command::GetKey {
                dst: 11,
                ephe: 9,
                index: 0,
            },
        );
        if !is_other_kind(&found) {
            return Search {
                index,
                rest,
                steps,
                mine: is_this(&found, label),
                other: other_than(&found, label),
            };
        }
        let _down = perform(m, rt, Command::Copy { dst: 8, src: 9 });
        index = node_index(rest);
        rest /= 32;
        steps += 1;
        at = read_again(m, rt, index);
    }
    Search {
        index,
        rest,
        steps,
        mine: false,
        other: None,
    }
}

// Reads into register 9 the field of the block in register 8 to which a search came.
pub(crate) fn read_again<M: Machine, R: Wait>(m: &mut M, rt: &R, index: u16) -> Reply
    ensures leaves { Leaves M.sizes M.domain M.heap M.front M.labels_left M.ephes_room m.old m.new }
    ensures read { PerformedBy (M.sizes m.old) (M.domain m.old) (M.front m.old) (M.front m.new) (command.Load 9 8 index) result }
{
    perform(
        m,
        rt,
        Command::Load {
            dst: 9,
            src: 8,
            index,
        },
    )
}

// Puts what register 10 holds into a field of the block in register 8, where that holds what register 9 holds. Answers whether
// it did.
pub(crate) fn exchange<M: Machine, R: Wait>(m: &mut M, rt: &R, index: u16) -> Reply
    ensures leaves { Leaves M.sizes M.domain M.heap M.front M.labels_left M.ephes_room m.old m.new }
    ensures exchanged { PerformedBy (M.sizes m.old) (M.domain m.old) (M.front m.old) (M.front m.new) (command.Cas 8 index 9 10) result }
{
    perform(
        m,
        rt,
        Command::Cas {
            block: 8,
            index,
            expected: 9,
            item: 10,
        },
    )
}

// Empties the registers that the calls use between.
pub(crate) fn clear<M: Machine, R: Wait>(m: &mut M, rt: &R)
    ensures leaves { Leaves M.sizes M.domain M.heap M.front M.labels_left M.ephes_room m.old m.new }
    ensures cleared { Cleared (M.sizes m.old) (M.domain m.old) (M.front m.old) (M.front m.new) }
{
    let _eight = perform(m, rt, Command::Forget { dst: 8 });
    let _nine = perform(m, rt, Command::Forget { dst: 9 });
    let _ten = perform(m, rt, Command::Forget { dst: 10 });
    let _eleven = perform(m, rt, Command::Forget { dst: 11 });
}

/// Takes the binding of the key in a register out of the map in another. Answers `type` exactly where the register holds no
/// label, and then changes nothing; `none` where the key wasn't bound at some moment of the call; and else that it is done:
/// the key was bound, and an entry of the call unbound it and no other key. Registers are below 8. Registers 8 to 11 hold
/// nothing afterwards, but for `type`. Other domains may use the map meanwhile, by its calls. Where one of them wins a field,
/// the call tries again. Each entry of the call respects the map, as long as the others' entries before it did.
pub fn map_take<M: Machine, R: Wait>(m: &mut M, rt: &R, map: u8, key: u8) -> Reply
    requires few { (map < 8) × (key < 8) }
    ensures leaves { Leaves M.sizes M.domain M.heap M.front M.labels_left M.ephes_room m.old m.new }
    ensures granted { full_of result ≡ 0 }
    ensures guards { TakeGuards (M.sizes m.old) (M.domain m.old) (M.front m.old) (M.front m.new) map }
    ensures answer { TakesAt (M.sizes m.old) (M.domain m.old) (M.front m.old) (M.front m.new) map key result }
    ensures follows { FollowsAt (M.sizes m.old) (M.domain m.old) (M.front m.old) (M.front m.new) map }
{
    m.shows_legal();
    let Reply::Block(label) = m.show(key) else {
        return Reply::BadType;
    };
    let number = number_of(m.domains(), &label);
    let _zero = perform(m, rt, Command::PutInt { dst: 10, value: 0 });
    let _root = perform(m, rt, Command::Copy { dst: 8, src: map });
    let mut from = from_root(number);
    let mut at = read_again(m, rt, from.index);
    'tries: for _ in rt.forever() {
        from = find(m, rt, key, &label, from, at);
        if !from.mine {
            clear(m, rt);
            return Reply::Empty;
        }
        let won = exchange(m, rt, from.index);
        if is_yes(&won) {
            clear(m, rt);
            return Reply::Done;
        }
        at = read_again(m, rt, from.index);
    }
    unreachable!()
}
