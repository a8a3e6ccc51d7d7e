//! What a key is bound to.
ghost use Rattle.std.specs.Prelude.{◌≡◌, ◌<◌, None, IfSome};
ghost use Rattle.weak_laws.specs.Tables.Performing.{full_of, is_spared};
ghost use Rattle.weak_maps.specs.Returns.{FollowsAt};
ghost use Rattle.weak_maps.specs.Walks.{Descended};
ghost use Rattle.weak_direct.specs.Leaves.{GetsAt, LooksUp};
ghost use Rattle.weak_direct.specs.Tries.{KeepsBeside, Reads};
ghost use Rattle.weak_direct.specs.Frames.{Keeps, Looks};

use crate::direct::{Direct, finish, step};
use model_core::command::Command;
use model_core::label::Label;
use model_core::reply::Reply;
use weak_maps::digits::{node_index, number_of, root_index};
use weak_maps::replies::{is_block, is_other_kind, is_this};

// Follows the way to a key, which a register holds, to its end. Tells whether a leaf was met there: register 8 holds it.
fn descend<M: Direct>(m: &mut M, map: u8, key: u8, label: &Label) -> Option<bool>
    requires few { (map < 8) × (key < 8) }
    ensures looks { Looks M.sizes M.domain M.heap M.front M.labels_left M.ephes_room m.old m.new }
    ensures met { IfSome result (λ met. Descended (M.sizes m.old) (M.domain m.old) (M.front m.old) (M.front m.new) map key label.now met) }
{
    m.shows_inside();
    let number = number_of(m.domains(), label);
    let mut rest = number / 512;
    let mut at = step(
        m,
        Command::Load {
            dst: 8,
            src: map,
            index: root_index(number),
        },
    )?;
    'levels: for _ in 0..6u8 {
        if !is_block(&at) {
            return Some(false);
        }
        at = step(
            m,
            Command::Load {
                dst: 8,
                src: 8,
                index: node_index(rest),
            },
        )?;
        if is_other_kind(&at) {
            return Some(true);
        }
        rest /= 32;
    }
    Some(is_block(&at))
}

// Looks a key up, which a register holds. Tells whether it found a leaf of the key: register 8 holds it.
fn look_up<M: Direct>(m: &mut M, map: u8, key: u8, label: &Label) -> Option<bool>
    requires few { (map < 8) × (key < 8) }
    ensures looks { Looks M.sizes M.domain M.heap M.front M.labels_left M.ephes_room m.old m.new }
    ensures found { IfSome result (λ mine. LooksUp (M.sizes m.old) (M.domain m.old) (M.front m.old) (M.front m.new) map key label.now mine) }
{
    if !descend(m, map, key, label)? {
        return Some(false);
    }
    let found = step(
        m,
        Command::GetKey {
            dst: 9,
            ephe: 8,
            index: 0,
        },
    )?;
    Some(is_this(&found, label))
}

/// Reads what the map in a register binds the key in another to, into a third. Answers `type` exactly where the second holds
/// no label, and then changes nothing. Else it answers what the map bound the key to at some moment of the call, which the
/// third register holds afterwards: a datum, or `none` and nothing. Registers are below 8. Registers 8 to 11 are used between.
/// Other domains may use the map meanwhile, by its calls. Whatever these do, the call changes no block and makes none. None
/// where a command is put off: then all registers but 8 to 11 hold what they held, and the call may be asked anew.
pub fn map_get<M: Direct>(m: &mut M, dst: u8, map: u8, key: u8) -> Option<Reply>
    requires few { (dst < 8) × (map < 8) × (key < 8) }
    ensures keeps { Keeps M.sizes M.domain M.heap M.labels_left M.ephes_room m.old m.new }
    ensures reads { Reads (M.sizes m.old) (M.domain m.old) (is_spared dst) (M.front m.old) (M.front m.new) }
    ensures granted { IfSome result (λ r. full_of r ≡ 0) }
    ensures answer { IfSome result
        (GetsAt (M.sizes m.old) (M.domain m.old) (M.front m.old) (M.front m.new) dst map key) }
    ensures follows { FollowsAt (M.sizes m.old) (M.domain m.old) (M.front m.old) (M.front m.new) map }
    ensures stopped { result ≡ None → KeepsBeside (M.sizes m.old) (M.domain m.old) (M.front m.old) (M.front m.new) }
{
    m.shows_inside();
    let Reply::Block(label) = m.show(key) else {
        return Some(Reply::BadType);
    };
    if !look_up(m, map, key, &label)? {
        finish(m, Command::Forget { dst })?;
        return Some(Reply::Empty);
    }
    finish(m, Command::GetData { dst, ephe: 8 })
}
