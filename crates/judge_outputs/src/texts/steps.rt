//! What lines answer and leave, once what goes has gone.
ghost use Rattle.std.specs.Prelude.{◌≡◌, ◌≤◌, ◌+◌, ◌^◌, IfOk, IsTrue, List, Some};
ghost use Rattle.model_core.specs.Domains.{IsWithinLimits, reserve};
ghost use Rattle.table_text.specs.declared.line.TableLine.{TableLine as declared_line};
ghost use Rattle.table_text.specs.Machine.Machine.{AllGone, Deletes, Effect, HasItsKey, IsNew, MayBeRefused, Shows, all_made, made_by, with_key};
ghost use Rattle.judge_outputs.specs.Texts.Playing.{NamesKey};
ghost use Rattle.weak_laws.specs.Tables.Structures.{datum_at};
ghost use Rattle.table_text.specs.declared.line.TableLine.TheVariants.{Count, Del, Forget, FullMajor, Get, GetWeak, Key, Put, SetWeak};

use crate::texts::bindings::{are_held, datum_of};
use crate::texts::machine::Machine;
use crate::texts::places::{are_kept, is_held};
use model_core::graph::Value;
use model_core::label::Label;
use model_core::state::Sizes;
use std::alloc::{AllocError, Global};
use table_text::machine::LineReply;
use table_text::{TableLine, Version};

// Whether the label is nowhere in the machine.
fn is_new(machine: &Machine, label: Label) -> bool
    ensures { IsTrue result → IsNew machine.now label }
{
    if is_held(&machine.registers, label) || is_held(&machine.slots, label) {
        return false;
    }
    match datum_of(&machine.bindings, label) {
        None => true,
        Some(_) => false,
    }
}

fn make_key(machine: &mut Machine, reg: u8, label: Label, reply: LineReply) -> bool
    ensures does { IsTrue result → Effect machine.old (Key reg) reply machine.new }
    ensures named { IsTrue result → machine.new ≡ with_key machine.old reg (Some label) }
{
    if !matches!(reply, LineReply::Done) || !is_new(machine, label) {
        return false;
    }
    machine.hold(reg, Some(label));
    true
}

fn forget(machine: &mut Machine, reg: u8, reply: LineReply) -> bool
    ensures { IsTrue result → Effect machine.old (Forget reg) reply machine.new }
{
    machine.hold(reg, None);
    matches!(reply, LineReply::Done)
}

#[tactic(auto, using(crate::proofs::OfTexts::EffectLemmas::with_none, crate::proofs::OfTexts::EffectLemmas::with_some, crate::proofs::OfTexts::EffectLemmas::binds))]
fn put(
    machine: &mut Machine,
    alloc: Global,
    reg: u8,
    value: i64,
    reply: LineReply,
) -> Result<bool, AllocError>
    ensures { IfOk result (λ yes. IsTrue yes → Effect machine.old (Put reg value) reply machine.new) }
{
    let Some(key) = machine.key_in(reg) else {
        return Ok(matches!(reply, LineReply::BadType));
    };
    machine.bind(alloc, key, value)?;
    Ok(matches!(reply, LineReply::Done))
}

// Whether a look-up answers so.
fn shows(found: Option<Value>, reply: LineReply) -> bool
    ensures { IsTrue result → Shows found reply }
{
    match (found, reply) {
        (Some(Value::Int(value)), LineReply::Number(told)) => value == told,
        (None, LineReply::Empty) => true,
        _ => false,
    }
}

#[tactic(auto, using(crate::proofs::OfTexts::EffectLemmas::with_none, crate::proofs::OfTexts::EffectLemmas::with_some))]
fn get(machine: &Machine, reg: u8, reply: LineReply) -> bool
    ensures { IsTrue result → Effect machine.now (Get reg) reply machine.now }
{
    match machine.key_in(reg) {
        Some(key) => shows(datum_of(&machine.bindings, key), reply),
        None => matches!(reply, LineReply::BadType),
    }
}

// Takes out the binding of a key, if there is one.
fn delete(
    machine: &mut Machine,
    alloc: Global,
    key: Label,
    reply: LineReply,
) -> Result<bool, AllocError>
    ensures { IfOk result (λ yes. IsTrue yes → Deletes key machine.old reply machine.new (datum_at machine.old.bindings key)) }
{
    match datum_of(&machine.bindings, key) {
        None => Ok(matches!(reply, LineReply::Empty)),
        Some(_) => {
            machine.unbind(alloc, key)?;
            Ok(matches!(reply, LineReply::Done))
        }
    }
}

#[tactic(auto, using(crate::proofs::OfTexts::EffectLemmas::with_none, crate::proofs::OfTexts::EffectLemmas::with_some))]
fn del(machine: &mut Machine, alloc: Global, reg: u8, reply: LineReply) -> Result<bool, AllocError>
    ensures { IfOk result (λ yes. IsTrue yes → Effect machine.old (Del reg) reply machine.new) }
{
    match machine.key_in(reg) {
        Some(key) => delete(machine, alloc, key, reply),
        None => Ok(matches!(reply, LineReply::BadType)),
    }
}

#[tactic(auto, using(crate::proofs::OfTexts::EffectLemmas::with_none, crate::proofs::OfTexts::EffectLemmas::with_some))]
fn set_weak(machine: &mut Machine, slot: u8, reg: u8, reply: LineReply) -> bool
    ensures { IsTrue result → Effect machine.old (SetWeak slot reg) reply machine.new }
{
    let Some(key) = machine.key_in(reg) else {
        return matches!(reply, LineReply::BadType);
    };
    machine.set_slot(slot, key);
    matches!(reply, LineReply::Done)
}

fn get_weak(machine: &mut Machine, dst: u8, slot: u8, reply: LineReply) -> bool
    ensures { IsTrue result → Effect machine.old (GetWeak dst slot) reply machine.new }
{
    let Some(held) = machine.slot(slot) else {
        return false;
    };
    machine.hold(dst, held);
    match held {
        Some(_) => matches!(reply, LineReply::Yes),
        None => matches!(reply, LineReply::Empty),
    }
}

fn count(machine: &Machine, reply: LineReply) -> bool
    ensures { IsTrue result → Effect machine.now Count reply machine.now }
{
    match reply {
        LineReply::Counted(number) => number as usize == machine.bindings.len(),
        _ => false,
    }
}

// Whether registers hold all keys that are anywhere.
fn is_all_held(machine: &Machine) -> bool
    ensures { IsTrue result → AllGone machine.now }
{
    if !are_held(&machine.registers, &machine.bindings) {
        return false;
    }
    are_kept(&machine.registers, &machine.slots)
}

fn full_major(machine: &Machine, reply: LineReply) -> bool
    ensures { IsTrue result → Effect machine.now FullMajor reply machine.now }
{
    match reply {
        LineReply::Done => is_all_held(machine),
        _ => false,
    }
}

/// How many labels a line may make.
pub(crate) fn labels_made(version: Version, line: TableLine) -> u64
    ensures made { result ≡ made_by version line }
    ensures few { result ≤ 7 }
{
    match line {
        TableLine::Key { .. } => 1,
        TableLine::Put { .. } => match version {
            Version::One => 2,
            Version::Two => 7,
        },
        _ => 0,
    }
}

/// Whether a line that binds the key in a register finds one there.
pub(crate) fn has_its_key(machine: &Machine, line: TableLine) -> bool
    ensures { IsTrue result → HasItsKey machine.now line }
{
    match line {
        TableLine::Put { reg, .. } => machine.key_in(reg).is_some(),
        _ => true,
    }
}

// Whether so many pools may be used up: those kept free for promotion and those of the classes, and one for each label.
fn may_be_full(sizes: &Sizes, made: u64) -> bool
    requires limits { IsWithinLimits sizes.now }
    requires few { made ≤ 2 ^ 40 }
    ensures { IsTrue result → sizes.now.pools ≤ 19 + made + reserve sizes.now + sizes.now.classes }
{
    let reserve = sizes.domains * (sizes.minor_words / 4096 + sizes.classes);
    u64::from(sizes.pools) <= 19 + made + u64::from(reserve) + u64::from(sizes.classes)
}

/// Whether a line, the last of those that make so many labels, may be answered `full`.
pub(crate) fn may_be_refused(
    machine: &Machine,
    sizes: &Sizes,
    version: Version,
    line: TableLine,
    made: u64,
) -> bool
    requires limits { IsWithinLimits sizes.now }
    requires few { made ≤ 2 ^ 40 }
    ensures { (lines : List declared_line) → IsTrue result → made ≡ all_made version lines → MayBeRefused version sizes.now lines line machine.now }
{
    if labels_made(version, line) == 0 || !has_its_key(machine, line) {
        return false;
    }
    may_be_full(sizes, made)
}

/// Makes a line, and answers whether it may be answered so. A key that it makes has this label.
pub(crate) fn make_line(
    machine: &mut Machine,
    alloc: Global,
    line: TableLine,
    label: Label,
    reply: LineReply,
) -> Result<bool, AllocError>
    ensures does { IfOk result (λ yes. IsTrue yes → Effect machine.old line reply machine.new) }
    ensures named { IfOk result (λ yes. IsTrue yes → NamesKey label line reply machine.old machine.new) }
{
    match line {
        TableLine::Key { reg } => Ok(make_key(machine, reg, label, reply)),
        TableLine::Forget { reg } => Ok(forget(machine, reg, reply)),
        TableLine::Put { reg, value } => put(machine, alloc, reg, value, reply),
        TableLine::Get { reg } => Ok(get(machine, reg, reply)),
        TableLine::Del { reg } => del(machine, alloc, reg, reply),
        TableLine::SetWeak { slot, reg } => Ok(set_weak(machine, slot, reg, reply)),
        TableLine::GetWeak { dst, slot } => Ok(get_weak(machine, dst, slot, reply)),
        TableLine::Count => Ok(count(machine, reply)),
        TableLine::FullMajor => Ok(full_major(machine, reply)),
    }
}
