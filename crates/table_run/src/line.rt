// What each line does. Register 6 holds the table or the map and register 7 the weak array; register 0 is used between.
ghost use Rattle.std.specs.Prelude.{◌≡◌, ◌+◌, ◌<◌, ◌≤◌, true};
ghost use Rattle.model_core.specs.declared.reply.Reply.TheVariants as variant;
ghost use Rattle.table_text.specs.declared.line.TableLine.TheVariants as line_of;
ghost use Rattle.table_text.specs.Forms.{is_writable};
ghost use Rattle.table_text.specs.Machine.Machine.{made_by, made_by_put};
ghost use Rattle.weak_tables.specs.Frames.{Spends};
ghost use Rattle.table_run.specs.Standing.{IsStanding};
ghost use Rattle.table_run.specs.Running.{LineAnswers, rooms_of};

use crate::keepers::OneDomain;
use crate::keepers::calls::{keeper_count, keeper_get, keeper_put, keeper_sweep, keeper_take};
use model_core::command::Command;
use std::sync::Wait;
use table_text::machine::{LineReply, said};
use table_text::{TableLine, Version};
use weak_maps::replies::is_full;
use weak_tables::arrays::{weak_get, weak_set};
use weak_tables::machine::Machine;

const KEEPER: u8 = 6;

const ARRAY: u8 = 7;

// A new key, into a register.
fn make_key<M: Machine, R: Wait>(
    version: Version,
    m: &mut OneDomain<M>,
    rt: &R,
    reg: u8,
) -> LineReply
    requires register { (1 ≤ reg) × (reg ≤ 5) }
    requires label { 1 ≤ M.labels_left m.old.machine }
    ensures spends { Spends M.sizes M.labels_left M.ephes_room 1 0 m.old.machine m.new.machine }
    ensures runs { LineAnswers version (M.sizes m.old.machine) (M.labels_left m.old.machine) (line_of.Key reg) (M.front m.old.machine) result (M.front m.new.machine) }
{
    m.machine.shows_legal();
    let key = m.machine.perform(
        rt,
        Command::Alloc {
            dst: reg,
            tag: 0,
            fields: 1,
        },
    );
    m.machine.shows_legal();
    if is_full(&key) {
        return LineReply::Full;
    }
    LineReply::Done
}

// A register that holds nothing.
fn forget<M: Machine, R: Wait>(version: Version, m: &mut OneDomain<M>, rt: &R, reg: u8) -> LineReply
    requires register { (1 ≤ reg) × (reg ≤ 5) }
    ensures spends { Spends M.sizes M.labels_left M.ephes_room 0 0 m.old.machine m.new.machine }
    ensures runs { LineAnswers version (M.sizes m.old.machine) (M.labels_left m.old.machine) (line_of.Forget reg) (M.front m.old.machine) result (M.front m.new.machine) }
{
    m.machine.shows_legal();
    let _nothing = m.machine.perform(rt, Command::Forget { dst: reg });
    LineReply::Done
}

// The key in a register is bound to a value.
fn put<M: Machine, R: Wait>(
    version: Version,
    m: &mut OneDomain<M>,
    rt: &R,
    reg: u8,
    value: i64,
) -> LineReply
    requires register { (1 ≤ reg) × (reg ≤ 5) }
    requires fits { is_writable (line_of.Put reg value) ≡ true }
    requires labels { made_by_put version ≤ M.labels_left m.old.machine }
    requires room { 1 ≤ M.ephes_room m.old.machine }
    requires stands { IsStanding version (M.sizes m.old.machine) (M.front m.old.machine) }
    ensures spends { Spends M.sizes M.labels_left M.ephes_room (made_by_put version) 1 m.old.machine m.new.machine }
    ensures runs { LineAnswers version (M.sizes m.old.machine) (M.labels_left m.old.machine) (line_of.Put reg value) (M.front m.old.machine) result (M.front m.new.machine) }
{
    m.machine.shows_legal();
    let _value = m.machine.perform(rt, Command::PutInt { dst: 0, value });
    let reply = keeper_put(version, m, rt, KEEPER, reg, 0);
    m.machine.shows_legal();
    said(&reply)
}

// What the key in a register is bound to.
fn get<M: Machine, R: Wait>(version: Version, m: &mut OneDomain<M>, rt: &R, reg: u8) -> LineReply
    requires register { (1 ≤ reg) × (reg ≤ 5) }
    requires stands { IsStanding version (M.sizes m.old.machine) (M.front m.old.machine) }
    ensures spends { Spends M.sizes M.labels_left M.ephes_room 0 0 m.old.machine m.new.machine }
    ensures runs { LineAnswers version (M.sizes m.old.machine) (M.labels_left m.old.machine) (line_of.Get reg) (M.front m.old.machine) result (M.front m.new.machine) }
{
    m.machine.shows_legal();
    let reply = keeper_get(version, m, rt, 0, KEEPER, reg);
    said(&reply)
}

// The binding of the key in a register is taken out.
fn delete<M: Machine, R: Wait>(version: Version, m: &mut OneDomain<M>, rt: &R, reg: u8) -> LineReply
    requires register { (1 ≤ reg) × (reg ≤ 5) }
    requires stands { IsStanding version (M.sizes m.old.machine) (M.front m.old.machine) }
    ensures spends { Spends M.sizes M.labels_left M.ephes_room 0 0 m.old.machine m.new.machine }
    ensures runs { LineAnswers version (M.sizes m.old.machine) (M.labels_left m.old.machine) (line_of.Del reg) (M.front m.old.machine) result (M.front m.new.machine) }
{
    m.machine.shows_legal();
    let reply = keeper_take(version, m, rt, KEEPER, reg);
    said(&reply)
}

// A slot holds the key in a register.
fn set_slot<M: Machine, R: Wait>(
    version: Version,
    m: &mut OneDomain<M>,
    rt: &R,
    slot: u8,
    reg: u8,
) -> LineReply
    requires slot { slot < 16 }
    requires register { (1 ≤ reg) × (reg ≤ 5) }
    requires stands { IsStanding version (M.sizes m.old.machine) (M.front m.old.machine) }
    ensures spends { Spends M.sizes M.labels_left M.ephes_room 0 0 m.old.machine m.new.machine }
    ensures runs { LineAnswers version (M.sizes m.old.machine) (M.labels_left m.old.machine) (line_of.SetWeak slot reg) (M.front m.old.machine) result (M.front m.new.machine) }
{
    m.machine.shows_legal();
    let reply = weak_set(&mut m.machine, rt, ARRAY, u16::from(slot), reg);
    said(&reply)
}

// A register holds the key of a slot, or nothing.
fn get_slot<M: Machine, R: Wait>(
    version: Version,
    m: &mut OneDomain<M>,
    rt: &R,
    dst: u8,
    slot: u8,
) -> LineReply
    requires register { (1 ≤ dst) × (dst ≤ 5) }
    requires slot { slot < 16 }
    requires stands { IsStanding version (M.sizes m.old.machine) (M.front m.old.machine) }
    ensures spends { Spends M.sizes M.labels_left M.ephes_room 0 0 m.old.machine m.new.machine }
    ensures runs { LineAnswers version (M.sizes m.old.machine) (M.labels_left m.old.machine) (line_of.GetWeak dst slot) (M.front m.old.machine) result (M.front m.new.machine) }
{
    m.machine.shows_legal();
    let reply = weak_get(&mut m.machine, rt, 0, ARRAY, u16::from(slot));
    let _copied = m.machine.perform(rt, Command::Copy { dst, src: 0 });
    said(&reply)
}

// How many bindings there are.
fn count<M: Machine, R: Wait>(version: Version, m: &mut OneDomain<M>, rt: &R) -> LineReply
    requires stands { IsStanding version (M.sizes m.old.machine) (M.front m.old.machine) }
    ensures spends { Spends M.sizes M.labels_left M.ephes_room 0 0 m.old.machine m.new.machine }
    ensures runs { LineAnswers version (M.sizes m.old.machine) (M.labels_left m.old.machine) line_of.Count (M.front m.old.machine) result (M.front m.new.machine) }
{
    m.machine.shows_legal();
    LineReply::Counted(keeper_count(version, m, rt, KEEPER))
}

// A complete collection. Register 0 may hold a key of a slot, and is emptied before; and a map may hold a datum that has lost
// its key, and is swept.
fn collect<M: Machine, R: Wait>(version: Version, m: &mut OneDomain<M>, rt: &R) -> LineReply
    requires stands { IsStanding version (M.sizes m.old.machine) (M.front m.old.machine) }
    ensures spends { Spends M.sizes M.labels_left M.ephes_room 0 0 m.old.machine m.new.machine }
    ensures runs { LineAnswers version (M.sizes m.old.machine) (M.labels_left m.old.machine) line_of.FullMajor (M.front m.old.machine) result (M.front m.new.machine) }
{
    m.machine.shows_legal();
    let _nothing = m.machine.perform(rt, Command::Forget { dst: 0 });
    m.machine.shows_legal();
    keeper_sweep(version, m, rt, KEEPER);
    m.machine.shows_legal();
    let _live = m.machine.perform(rt, Command::FullMajor);
    LineReply::Done
}

// Runs a line.
pub(crate) fn run_line<M: Machine, R: Wait>(
    version: Version,
    m: &mut OneDomain<M>,
    rt: &R,
    line: TableLine,
) -> LineReply
    requires fits { is_writable line ≡ true }
    requires labels { made_by version line ≤ M.labels_left m.old.machine }
    requires room { rooms_of line ≤ M.ephes_room m.old.machine }
    requires stands { IsStanding version (M.sizes m.old.machine) (M.front m.old.machine) }
    ensures spends { Spends M.sizes M.labels_left M.ephes_room (made_by version line) (rooms_of line) m.old.machine m.new.machine }
    ensures runs { LineAnswers version (M.sizes m.old.machine) (M.labels_left m.old.machine) line (M.front m.old.machine) result (M.front m.new.machine) }
{
    match line {
        TableLine::Key { reg } => make_key(version, m, rt, reg),
        TableLine::Forget { reg } => forget(version, m, rt, reg),
        TableLine::Put { reg, value } => put(version, m, rt, reg, value),
        TableLine::Get { reg } => get(version, m, rt, reg),
        TableLine::Del { reg } => delete(version, m, rt, reg),
        TableLine::SetWeak { slot, reg } => set_slot(version, m, rt, slot, reg),
        TableLine::GetWeak { dst, slot } => get_slot(version, m, rt, dst, slot),
        TableLine::Count => count(version, m, rt),
        TableLine::FullMajor => collect(version, m, rt),
    }
}
