//! Bindings that are taken out.
ghost use Rattle.std.specs.Prelude.{◌≡◌, ◌<◌, None, IfSome};
ghost use Rattle.model_core.specs.declared.command.Command.TheVariants as command;
ghost use Rattle.weak_laws.specs.Tables.Performing.{full_of};
ghost use Rattle.weak_maps.specs.Fields.{Finds};
ghost use Rattle.weak_maps.specs.Guards.{TakeGuards};
ghost use Rattle.weak_maps.specs.Puts.{FindsField, KeepsLeaf};
ghost use Rattle.weak_maps.specs.Returns.{FollowsAt};
ghost use Rattle.weak_maps.specs.Walks.{OwnQuiet};
ghost use Rattle.weak_direct.specs.Leaves.{StopsAt, TakesAt};
ghost use Rattle.weak_direct.specs.Tries.{ReadsRoot};
ghost use Rattle.weak_direct.specs.Frames.{Goes, Looks};
ghost use Rattle.weak_laws.specs.Maps.Calls.{PerformedBy};

use crate::direct::{Direct, clear, step};
use model_core::command::Command;
use model_core::label::Label;
use model_core::reply::Reply;
use weak_maps::digits::{node_index, number_of};
use weak_maps::replies::{is_block, is_other_kind, is_this, is_yes, other_than};
use weak_maps::taking::{Search, from_root};

/// How often a call tries to win a field before it stops.
pub const MOST_TRIES: u32 = 1000;

/// Reads a field of the root of the map in a register: its block comes into register 8, and what the field holds into register
/// 9.
pub(crate) fn read_root<M: Direct>(m: &mut M, map: u8, index: u16) -> Option<Reply>
    requires few { map < 8 }
    ensures looks { Looks M.sizes M.domain M.heap M.front M.labels_left M.ephes_room m.old m.new }
    ensures read { IfSome result (ReadsRoot (M.sizes m.old) (M.domain m.old) (M.front m.old) (M.front m.new) map index) }
{
    let _root = step(m, Command::Copy { dst: 8, src: map })?;
    read_field(m, index)
}

// Reads a field of the block in register 8 into register 9.
fn read_field<M: Direct>(m: &mut M, index: u16) -> Option<Reply>
    ensures looks { Looks M.sizes M.domain M.heap M.front M.labels_left M.ephes_room m.old m.new }
    ensures read { IfSome result (PerformedBy (M.sizes m.old) (M.domain m.old) (M.front m.old) (M.front m.new) (command.Load 9 8 index)) }
{
    step(
        m,
        Command::Load {
            dst: 9,
            src: 8,
            index,
        },
    )
}

/// Writes a field of the block in register 8 with what a register holds, if it holds what register 9 does still.
pub(crate) fn exchange<M: Direct>(m: &mut M, index: u16, item: u8) -> Option<Reply>
    requires few { item < 16 }
    ensures goes { Goes M.sizes M.domain M.heap M.front M.labels_left M.ephes_room m.old m.new }
    ensures stopped { result ≡ None → OwnQuiet (M.sizes m.old) (M.domain m.old) (M.front m.old) (M.front m.new) }
    ensures performed { IfSome result (PerformedBy (M.sizes m.old) (M.domain m.old) (M.front m.old) (M.front m.new) (command.Cas 8 index 9 item)) }
{
    step(
        m,
        Command::Cas {
            block: 8,
            index,
            expected: 9,
            item,
        },
    )
}

/// Goes on from a field on a key's way, whose block is in register 8 and what it held in register 9, to the one at which the
/// way ends. Register 11 is used between.
pub(crate) fn find<M: Direct>(
    m: &mut M,
    key: u8,
    label: &Label,
    from: Search,
    field: Reply,
) -> Option<Search>
    requires few { key < 8 }
    ensures looks { Looks M.sizes M.domain M.heap M.front M.labels_left M.ephes_room m.old m.new }
    ensures leaf { IfSome result (λ s. KeepsLeaf (M.sizes m.old) (M.domain m.old) (M.front m.old) (M.front m.new) key label.now from.index from.rest field) }
    ensures field { IfSome result (λ s. FindsField (M.sizes m.old) (M.domain m.old) (M.front m.old) (M.front m.new) key label.now from.index from.rest field s.index s.rest s.steps s.other) }
    ensures found { IfSome result (λ s. Finds (M.sizes m.old) (M.domain m.old) (M.front m.old) (M.front m.new) key label.now from.index from.rest field s.index s.rest s.mine) }
{
    m.shows_inside();
    let mut index = from.index;
    let mut rest = from.rest;
    let mut steps = 0u8;
    let mut at = field;
    'levels: for _ in 0..7u8 {
        if !is_block(&at) {
            break;
        }
        let found = step(
            m,
            Command::GetKey {
                dst: 11,
                ephe: 9,
                index: 0,
            },
        )?;
        if !is_other_kind(&found) {
            return Some(Search {
                index,
                rest,
                steps,
                mine: is_this(&found, label),
                other: other_than(&found, label),
            });
        }
        step(m, Command::Copy { dst: 8, src: 9 })?;
        index = node_index(rest);
        rest /= 32;
        steps += 1;
        at = read_field(m, index)?;
    }
    Some(Search {
        index,
        rest,
        steps,
        mine: false,
        other: None,
    })
}

/// Takes the binding of the key in a register out of the map in another. Answers `type` exactly where the register holds no
/// label, and then changes nothing; `none` where the key wasn't bound at some moment of the call; and else that it is done:
/// the key was bound, and an entry of the call unbound it and no other key. Registers are below 8. Registers 8 to 11 are used
/// between. Other domains may use the map meanwhile, by its calls. Where one of them wins a field, the call tries again. Each
/// entry of the call respects the map, as long as the others' entries before it did. None where a command is put off or a
/// field was lost so often: then no binding was changed, and the call may be asked anew.
pub fn map_take<M: Direct>(m: &mut M, map: u8, key: u8) -> Option<Reply>
    requires few { (map < 8) × (key < 8) }
    ensures goes { Goes M.sizes M.domain M.heap M.front M.labels_left M.ephes_room m.old m.new }
    ensures granted { IfSome result (λ r. full_of r ≡ 0) }
    ensures guards { TakeGuards (M.sizes m.old) (M.domain m.old) (M.front m.old) (M.front m.new) map }
    ensures answer { IfSome result (TakesAt (M.sizes m.old) (M.domain m.old) (M.front m.old) (M.front m.new) map key) }
    ensures follows { FollowsAt (M.sizes m.old) (M.domain m.old) (M.front m.old) (M.front m.new) map }
    ensures stopped { result ≡ None → StopsAt (M.sizes m.old) (M.domain m.old) (M.front m.old) (M.front m.new) map }
{
    m.shows_inside();
    let Reply::Block(label) = m.show(key) else {
        return Some(Reply::BadType);
    };
    let number = number_of(m.domains(), &label);
    let _zero = step(m, Command::PutInt { dst: 10, value: 0 })?;
    let mut from = from_root(number);
    let mut at = read_root(m, map, from.index)?;
    'tries: for _ in 0..MOST_TRIES {
        from = find(m, key, &label, from, at)?;
        if !from.mine {
            clear(m);
            return Some(Reply::Empty);
        }
        let won = exchange(m, from.index, 10)?;
        if is_yes(&won) {
            clear(m);
            return Some(Reply::Done);
        }
        at = read_field(m, from.index)?;
    }
    None
}
