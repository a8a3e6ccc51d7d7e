//! What all domains share, where each finds it: three ephemerons, of whose keys all but the first and the last are the slots, and a
//! map. Fields of the shared block hold the ephemerons, and the map is the last key of the first.
ghost use Rattle.std.specs.Prelude.{◌≡◌, ◌<◌, ◌≤◌, ◌+◌, true};
ghost use Rattle.std.specs.List.{AllByRecursion};
ghost use Rattle.std.specs.Option.{ForSome};
ghost use Rattle.model_core.specs.declared.command.Command.TheVariants as command;
ghost use Rattle.model_core.specs.declared.graph.Value.TheVariants as value;
ghost use Rattle.model_core.specs.declared.reply.Reply.TheVariants as given;
ghost use Rattle.weak_laws.specs.Maps.Calls.{PerformedBy};
ghost use Rattle.weak_maps.specs.Beside.{held_by};
ghost use Rattle.table_sections.specs.Places.{Finds, HoldsPlaces, IsQuiet, LaysOut, MakesEach};
ghost use Rattle.weak_maps.specs.Frames.{Stays};

use model_core::command::Command;
use model_core::label::Label;
use model_core::reply::Reply;
use std::sync::Wait;
use weak_maps::machine::{Machine, perform};

// The registers of the shared block, of the map, and of the three ephemerons.
const SHARED: u8 = 0;

const MAP: u8 = 6;

const FIRST: u8 = 7;

const SECOND: u8 = 12;

const THIRD: u8 = 13;

// How many keys each ephemeron has.
const KEYS: u16 = 8;

const LAST_KEY: u16 = 7;

/// The three ephemerons, and the root of the map.
#[derive(Clone, Copy, PartialEq, Eq)]
pub(crate) struct Places {
    pub(crate) first: Label,
    pub(crate) second: Label,
    pub(crate) third: Label,
    pub(crate) map: Label,
}

// The block of a reply that shows one.
fn block_of(reply: Reply) -> Option<Label>
    ensures { ForSome result (λ l. reply ≡ given.Block l) }
{
    match reply {
        Reply::Block(label) => Some(label),
        _ => None,
    }
}

// Makes an ephemeron in a register. None where the allocation is refused.
fn make_slots<M: Machine, R: Wait>(m: &mut M, rt: &R, dst: u8) -> Option<Label>
    requires few { dst < 16 }
    requires label { 1 ≤ M.labels_left m.old }
    requires room { 1 ≤ M.ephes_room m.old }
    ensures stays { Stays M.sizes M.domain M.heap m.old m.new }
    ensures labels { M.labels_left m.old ≤ M.labels_left m.new + 1 }
    ensures room { M.ephes_room m.old ≤ M.ephes_room m.new + 1 }
    ensures made { ForSome result (λ l. PerformedBy (M.sizes m.old) (M.domain m.old) (M.front m.old) (M.front m.new)
        (command.Ephe dst 8) (given.Block l)) }
{
    block_of(perform(m, rt, Command::Ephe { dst, keys: KEYS }))
}

// Makes the root of a map in its register. None where the allocation is refused.
fn make_map<M: Machine, R: Wait>(m: &mut M, rt: &R) -> Option<Label>
    requires label { 1 ≤ M.labels_left m.old }
    ensures stays { Stays M.sizes M.domain M.heap m.old m.new }
    ensures labels { M.labels_left m.old ≤ M.labels_left m.new + 1 }
    ensures room { M.ephes_room m.old ≤ M.ephes_room m.new }
    ensures made { ForSome result (λ l. PerformedBy (M.sizes m.old) (M.domain m.old) (M.front m.old) (M.front m.new)
        (command.Alloc 6 0 512) (given.Block l)) }
{
    let command = Command::Alloc {
        dst: MAP,
        tag: 0,
        fields: 512,
    };
    block_of(perform(m, rt, command))
}

// Makes commands that take no label and no room, one after the other.
fn make_each<M: Machine, R: Wait>(m: &mut M, rt: &R, commands: &[Command])
    requires quiet { AllByRecursion IsQuiet commands.now }
    ensures stays { Stays M.sizes M.domain M.heap m.old m.new }
    ensures labels { M.labels_left m.old ≤ M.labels_left m.new }
    ensures room { M.ephes_room m.old ≤ M.ephes_room m.new }
    ensures made { MakesEach (M.sizes m.old) (M.domain m.old) (M.front m.old) commands.now (M.front m.new) }
{
    'commands: for command in commands {
        perform(m, rt, *command);
    }
}

// Loads a field of the shared block.
const fn load(dst: u8, index: u16) -> Command
    ensures command { result ≡ command.Load dst 0 index }
{
    Command::Load {
        dst,
        src: SHARED,
        index,
    }
}

// Stores what a register holds into a field of the shared block.
const fn store(index: u16, item: u8) -> Command
    ensures command { result ≡ command.Store 0 index item }
{
    Command::Store {
        block: SHARED,
        index,
        item,
    }
}

// The block that a register holds.
fn held<M: Machine>(m: &mut M, register: u8) -> Option<Label>
    requires few { register < 16 }
    ensures stays { Stays M.sizes M.domain M.heap m.old m.new }
    ensures front { M.front m.new ≡ M.front m.old }
    ensures labels { M.labels_left m.new ≡ M.labels_left m.old }
    ensures room { M.ephes_room m.new ≡ M.ephes_room m.old }
    ensures holds { ForSome result (λ l. held_by (M.sizes m.old) (M.domain m.old) (M.front m.old) register ≡ value.Block l) }
{
    block_of(m.show(register))
}

// What the registers hold, if each holds a block.
fn places_of<M: Machine>(m: &mut M) -> Option<Places>
    ensures stays { Stays M.sizes M.domain M.heap m.old m.new }
    ensures front { M.front m.new ≡ M.front m.old }
    ensures labels { M.labels_left m.new ≡ M.labels_left m.old }
    ensures room { M.ephes_room m.new ≡ M.ephes_room m.old }
    ensures holds { ForSome result (λ p. HoldsPlaces (M.sizes m.old) p (M.domain m.old) (M.front m.old)) }
{
    Some(Places {
        first: held(m, FIRST)?,
        second: held(m, SECOND)?,
        third: held(m, THIRD)?,
        map: held(m, MAP)?,
    })
}

/// Makes the ephemerons and the map, and puts them where all domains find them. None where an allocation is refused.
pub(crate) fn lay_out<M: Machine, R: Wait>(m: &mut M, rt: &R) -> Option<Places>
    requires labels { 4 ≤ M.labels_left m.old }
    requires room { 3 ≤ M.ephes_room m.old }
    ensures stays { Stays M.sizes M.domain M.heap m.old m.new }
    ensures labels { M.labels_left m.old ≤ M.labels_left m.new + 4 }
    ensures room { M.ephes_room m.old ≤ M.ephes_room m.new + 3 }
    ensures laid { ForSome result (λ p. LaysOut (M.sizes m.old) (M.domain m.old) (M.front m.old) (M.front m.new) p) }
{
    make_slots(m, rt, FIRST)?;
    make_slots(m, rt, SECOND)?;
    make_slots(m, rt, THIRD)?;
    make_each(m, rt, &[store(0, FIRST), store(1, SECOND), store(2, THIRD)]);
    make_map(m, rt)?;
    let share = Command::SetKey {
        ephe: FIRST,
        index: LAST_KEY,
        item: MAP,
    };
    make_each(m, rt, &[share]);
    places_of(m)
}

/// Loads the ephemerons and the map. Answers whether they are these.
pub(crate) fn find<M: Machine, R: Wait>(m: &mut M, rt: &R, places: Places) -> bool
    ensures stays { Stays M.sizes M.domain M.heap m.old m.new }
    ensures labels { M.labels_left m.old ≤ M.labels_left m.new }
    ensures room { M.ephes_room m.old ≤ M.ephes_room m.new }
    ensures found { result ≡ true → Finds (M.sizes m.old) (M.domain m.old) (M.front m.old) (M.front m.new) places }
{
    let find_map = Command::GetKey {
        dst: MAP,
        ephe: FIRST,
        index: LAST_KEY,
    };
    make_each(
        m,
        rt,
        &[load(FIRST, 0), load(SECOND, 1), load(THIRD, 2), find_map],
    );
    places_of(m) == Some(places)
}
