// What each line does. Register 6 holds the map and registers 7, 12 and 13 the slots; registers 0 and 8 to 11 are used between.
ghost use Rattle.std.specs.Prelude.{◌≡◌, ◌<◌, ◌≤◌, true};
ghost use Rattle.table_text.specs.declared.line.TableLine.TheVariants as line_of;
ghost use Rattle.table_text.specs.Forms.{is_writable};
ghost use Rattle.table_sections.specs.Lines.{HasRoomFor, IsKeyRegister, IsSharedLine, TakesAtMost};
ghost use Rattle.table_sections.specs.Sections.{LineDone};
ghost use Rattle.weak_maps.specs.Frames.{Stays};

use crate::slots::{slot_ephe, slot_key};
use model_core::command::Command;
use std::sync::Wait;
use table_text::TableLine;
use table_text::machine::{LineReply, said};
use weak_maps::getting::map_get;
use weak_maps::machine::{Machine, perform};
use weak_maps::putting::map_put;
use weak_maps::replies::is_full;
use weak_maps::taking::map_take;

const MAP: u8 = 6;

const BETWEEN: u8 = 0;

// A new key, into a register.
fn make_key<M: Machine, R: Wait>(m: &mut M, rt: &R, reg: u8) -> LineReply
    requires register { IsKeyRegister reg }
    requires room { HasRoomFor 1 (M.labels_left m.old) (M.ephes_room m.old) }
    ensures stays { Stays M.sizes M.domain M.heap m.old m.new }
    ensures takes { TakesAtMost 1 (M.labels_left m.old) (M.labels_left m.new) (M.ephes_room m.old) (M.ephes_room m.new) }
    ensures done { LineDone (M.sizes m.old) (M.domain m.old) (M.front m.old) (line_of.Key reg) result (M.front m.new) }
{
    let made = perform(
        m,
        rt,
        Command::Alloc {
            dst: reg,
            tag: 0,
            fields: 1,
        },
    );
    if is_full(&made) {
        return LineReply::Full;
    }
    LineReply::Done
}

// A register that holds nothing.
fn forget<M: Machine, R: Wait>(m: &mut M, rt: &R, reg: u8) -> LineReply
    requires register { IsKeyRegister reg }
    ensures stays { Stays M.sizes M.domain M.heap m.old m.new }
    ensures takes { TakesAtMost 1 (M.labels_left m.old) (M.labels_left m.new) (M.ephes_room m.old) (M.ephes_room m.new) }
    ensures done { LineDone (M.sizes m.old) (M.domain m.old) (M.front m.old) (line_of.Forget reg) result (M.front m.new) }
{
    let forgotten = perform(m, rt, Command::Forget { dst: reg });
    said(&forgotten)
}

// The key in a register is bound to a value.
fn put<M: Machine, R: Wait>(m: &mut M, rt: &R, reg: u8, value: i64) -> LineReply
    requires fits { is_writable (line_of.Put reg value) ≡ true }
    requires room { HasRoomFor 1 (M.labels_left m.old) (M.ephes_room m.old) }
    ensures stays { Stays M.sizes M.domain M.heap m.old m.new }
    ensures takes { TakesAtMost 1 (M.labels_left m.old) (M.labels_left m.new) (M.ephes_room m.old) (M.ephes_room m.new) }
    ensures done { LineDone (M.sizes m.old) (M.domain m.old) (M.front m.old) (line_of.Put reg value) result (M.front m.new) }
{
    m.shows_legal();
    let _value = perform(
        m,
        rt,
        Command::PutInt {
            dst: BETWEEN,
            value,
        },
    );
    m.shows_legal();
    let reply = map_put(m, rt, MAP, reg, BETWEEN);
    m.shows_legal();
    said(&reply)
}

// What the key in a register is bound to.
fn get<M: Machine, R: Wait>(m: &mut M, rt: &R, reg: u8) -> LineReply
    requires register { IsKeyRegister reg }
    ensures stays { Stays M.sizes M.domain M.heap m.old m.new }
    ensures takes { TakesAtMost 1 (M.labels_left m.old) (M.labels_left m.new) (M.ephes_room m.old) (M.ephes_room m.new) }
    ensures done { LineDone (M.sizes m.old) (M.domain m.old) (M.front m.old) (line_of.Get reg) result (M.front m.new) }
{
    m.shows_legal();
    let reply = map_get(m, rt, BETWEEN, MAP, reg);
    m.shows_legal();
    said(&reply)
}

// The binding of the key in a register is taken out.
fn delete<M: Machine, R: Wait>(m: &mut M, rt: &R, reg: u8) -> LineReply
    requires register { IsKeyRegister reg }
    ensures stays { Stays M.sizes M.domain M.heap m.old m.new }
    ensures takes { TakesAtMost 1 (M.labels_left m.old) (M.labels_left m.new) (M.ephes_room m.old) (M.ephes_room m.new) }
    ensures done { LineDone (M.sizes m.old) (M.domain m.old) (M.front m.old) (line_of.Del reg) result (M.front m.new) }
{
    m.shows_legal();
    let reply = map_take(m, rt, MAP, reg);
    m.shows_legal();
    said(&reply)
}

// A slot holds the key in a register.
fn set_slot<M: Machine, R: Wait>(m: &mut M, rt: &R, slot: u8, reg: u8) -> LineReply
    requires slot { slot < 16 }
    requires register { IsKeyRegister reg }
    ensures stays { Stays M.sizes M.domain M.heap m.old m.new }
    ensures takes { TakesAtMost 1 (M.labels_left m.old) (M.labels_left m.new) (M.ephes_room m.old) (M.ephes_room m.new) }
    ensures done { LineDone (M.sizes m.old) (M.domain m.old) (M.front m.old) (line_of.SetWeak slot reg) result (M.front m.new) }
{
    let set = perform(
        m,
        rt,
        Command::SetKey {
            ephe: slot_ephe(slot),
            index: slot_key(slot),
            item: reg,
        },
    );
    said(&set)
}

// A register holds the key of a slot, or nothing.
fn get_slot<M: Machine, R: Wait>(m: &mut M, rt: &R, dst: u8, slot: u8) -> LineReply
    requires register { IsKeyRegister dst }
    requires slot { slot < 16 }
    ensures stays { Stays M.sizes M.domain M.heap m.old m.new }
    ensures takes { TakesAtMost 1 (M.labels_left m.old) (M.labels_left m.new) (M.ephes_room m.old) (M.ephes_room m.new) }
    ensures done { LineDone (M.sizes m.old) (M.domain m.old) (M.front m.old) (line_of.GetWeak dst slot) result (M.front m.new) }
{
    m.shows_legal();
    let key = perform(
        m,
        rt,
        Command::GetKey {
            dst,
            ephe: slot_ephe(slot),
            index: slot_key(slot),
        },
    );
    said(&key)
}

// A complete collection. Register 0 may hold a key still, and is emptied before.
fn collect<M: Machine, R: Wait>(m: &mut M, rt: &R) -> LineReply
    ensures stays { Stays M.sizes M.domain M.heap m.old m.new }
    ensures takes { TakesAtMost 1 (M.labels_left m.old) (M.labels_left m.new) (M.ephes_room m.old) (M.ephes_room m.new) }
    ensures done { LineDone (M.sizes m.old) (M.domain m.old) (M.front m.old) line_of.FullMajor result (M.front m.new) }
{
    let _nothing = perform(m, rt, Command::Forget { dst: BETWEEN });
    let _live = perform(m, rt, Command::FullMajor);
    LineReply::Done
}

// Makes a line.
pub(crate) fn run_line<M: Machine, R: Wait>(m: &mut M, rt: &R, line: TableLine) -> LineReply
    requires fits { IsSharedLine line }
    requires room { HasRoomFor 1 (M.labels_left m.old) (M.ephes_room m.old) }
    ensures stays { Stays M.sizes M.domain M.heap m.old m.new }
    ensures takes { TakesAtMost 1 (M.labels_left m.old) (M.labels_left m.new) (M.ephes_room m.old) (M.ephes_room m.new) }
    ensures done { LineDone (M.sizes m.old) (M.domain m.old) (M.front m.old) line result (M.front m.new) }
{
    match line {
        TableLine::Key { reg } => make_key(m, rt, reg),
        TableLine::Forget { reg } => forget(m, rt, reg),
        TableLine::Put { reg, value } => put(m, rt, reg, value),
        TableLine::Get { reg } => get(m, rt, reg),
        TableLine::Del { reg } => delete(m, rt, reg),
        TableLine::SetWeak { slot, reg } => set_slot(m, rt, slot, reg),
        TableLine::GetWeak { dst, slot } => get_slot(m, rt, dst, slot),
        TableLine::Count => unreachable!(),
        TableLine::FullMajor => collect(m, rt),
    }
}
