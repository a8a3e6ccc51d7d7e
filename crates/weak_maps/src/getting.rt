//! What a key is bound to.
ghost use Rattle.std.specs.Prelude.{◌≡◌, ◌+◌, ◌<◌};
ghost use Rattle.model_core.specs.declared.graph.Value.TheVariants.{Block};
ghost use Rattle.model_core.specs.declared.reply.Reply.TheVariants as variant;
ghost use Rattle.weak_laws.specs.Tables.Performing.{full_of, is_spared};
ghost use Rattle.weak_maps.specs.Beside.{writings_by};
ghost use Rattle.weak_maps.specs.Walks.{Descended, Emptied, OwnQuiet};
ghost use Rattle.weak_maps.specs.Returns.{FollowsAt, GetsAt};
ghost use Rattle.weak_maps.specs.Frames.{Leaves, Reads};

use crate::digits::{node_index, number_of, root_index};
use crate::machine::{Machine, perform};
use crate::replies::{is_block, is_other_kind, is_this};
use model_core::command::Command;
use model_core::label::Label;
use model_core::reply::Reply;
use std::sync::Wait;

// Follows the way to a key, which a register holds, to its end. Tells whether a leaf was met there: register 8 holds it.
pub(crate) fn descend<M: Machine, R: Wait>(
    m: &mut M,
    rt: &R,
    map: u8,
    key: u8,
    label: &Label,
) -> bool
    requires few { (map < 8) × (key < 8) }
    ensures leaves { Leaves M.sizes M.domain M.heap M.front M.labels_left M.ephes_room m.old m.new }
    ensures quiet { OwnQuiet (M.sizes m.old) (M.domain m.old) (M.front m.old) (M.front m.new) }
    ensures met { Descended (M.sizes m.old) (M.domain m.old) (M.front m.old) (M.front m.new) map key label.now result }
{
    m.shows_legal();
    let number = number_of(m.domains(), label);
    let mut rest = number / 512;
    let mut at = perform(
        m,
        rt,
        Command::Load {
            dst: 8,
            src: map,
            index: root_index(number),
        },
    );
    'levels: for _ in 0..6u8 {
        if !is_block(&at) {
            return false;
        }
        at = perform(
            m,
            rt,
            Command::Load {
                dst: 8,
                src: 8,
                index: node_index(rest),
            },
        );
        if is_other_kind(&at) {
            return true;
        }
        rest /= 32;
    }
    is_block(&at)
}

// Answers that a key isn't bound: the register of the answer holds nothing then, nor does register 8.
fn unbound<M: Machine, R: Wait>(m: &mut M, rt: &R, dst: u8) -> Reply
    requires few { dst < 8 }
    ensures reply { result ≡ variant.Empty }
    ensures reads { Reads M.sizes M.domain M.heap M.front M.labels_left M.ephes_room m.old m.new (is_spared dst) }
    ensures written { writings_by (M.domain m.old) (M.front m.new) ≡ writings_by (M.domain m.old) (M.front m.old) + is_spared dst }
    ensures emptied { Emptied (M.sizes m.old) (M.domain m.old) (M.front m.old) (M.front m.new) dst }
{
    let _answer = perform(m, rt, Command::Forget { dst });
    let _leaf = perform(m, rt, Command::Forget { dst: 8 });
    Reply::Empty
}

/// Reads what the map in a register binds the key in another to, into a third. Answers `type` exactly where the second holds
/// no label, and then changes nothing. Else it answers what the map bound the key to at some moment of the call, which the
/// third register holds afterwards: a datum, or `none` and nothing. Registers are below 8. Register 8 holds nothing
/// afterwards. Other domains may use the map meanwhile, by its calls. Whatever these do, the call changes no block and makes
/// none.
pub fn map_get<M: Machine, R: Wait>(m: &mut M, rt: &R, dst: u8, map: u8, key: u8) -> Reply
    requires few { (dst < 8) × (map < 8) × (key < 8) }
    ensures reads { Reads M.sizes M.domain M.heap M.front M.labels_left M.ephes_room m.old m.new
        (is_spared dst + is_spared dst) }
    ensures granted { full_of result ≡ 0 }
    ensures quiet { OwnQuiet (M.sizes m.old) (M.domain m.old) (M.front m.old) (M.front m.new) }
    ensures answer { GetsAt (M.sizes m.old) (M.domain m.old) (M.front m.old) (M.front m.new) dst map key result }
    ensures follows { FollowsAt (M.sizes m.old) (M.domain m.old) (M.front m.old) (M.front m.new) map }
{
    m.shows_legal();
    let Reply::Block(label) = m.show(key) else {
        return Reply::BadType;
    };
    if !descend(m, rt, map, key, &label) {
        return unbound(m, rt, dst);
    }
    let found = perform(
        m,
        rt,
        Command::GetKey {
            dst,
            ephe: 8,
            index: 0,
        },
    );
    if !is_this(&found, &label) {
        return unbound(m, rt, dst);
    }
    let datum = perform(m, rt, Command::GetData { dst, ephe: 8 });
    let _leaf = perform(m, rt, Command::Forget { dst: 8 });
    datum
}
