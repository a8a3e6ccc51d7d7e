//! Commands on registers alone.
ghost use Rattle.std.specs.Prelude.{◌≡◌, ◌<◌, slice_set};
ghost use Rattle.model_core.specs.declared.entry.Entry.{Entry};
ghost use Rattle.model_core.specs.declared.command.Command.TheVariants.{PutInt, Copy, Forget};
ghost use Rattle.heap_words.specs.declared.value.Value.TheVariants.{Int, Nothing};
ghost use Rattle.heap_words.specs.Values.{IsPackable};
ghost use Rattle.heap_rule.specs.Items.{item_of};
ghost use Rattle.heap_rule.specs.Running.{Runs, Did, ChangesRegisters};
ghost use Rattle.heap_rule.specs.Running.{own_entry};
ghost use Rattle.heap_rule.specs.Token.{Holds};
ghost use Rattle.do_fields.specs.Fields.Registers.{CopiesInto};

use heap_rule::{Change, Domain, Heap, Item, Part};
use heap_words::Value;
use model_core::reply::Reply;
use step_run::fields::tick;

// The change by which a register holds a value.
fn holds(register: u8, value: Value) -> Change
    ensures { result ≡ Change.Set Part.Register register (item_of value) }
{
    Change::Set {
        part: Part::Register,
        place: u32::from(register),
        item: Item {
            value,
            number: 0,
            more: 0,
        },
    }
}

fn put_int_as(heap: &Heap, dom: &mut Domain, dst: u8, value: i64) -> Reply
    ghost entry: { Entry }
    requires entry { entry ≡ own_entry dom.old (PutInt dst value) }
    requires runs { Runs heap.now dom.old }
    requires dst { dst < 16 }
    requires value { IsPackable (Int value) }
    ensures did { Did heap.now dom.old dom.new (PutInt dst value) result }
    ensures rest { ChangesRegisters dom.old dom.new }
    ensures registers { dom.new.view.own.registers ≡ slice_set dom.old.view.own.registers dst (Int value) }
    ensures holds { Holds heap.now.config dom.new.view.own.registers }
{
    tick(heap, dom, 0, &[holds(dst, Value::Int(value))]);
    Reply::Done
}

/// Puts an integer of 63 bits into a register. The reply is always `Done`. Registers are below 16,
/// the domain's trace hasn't ended, and no finaliser waits in its queue.
pub fn put_int(heap: &Heap, dom: &mut Domain, dst: u8, value: i64) -> Reply
    requires runs { Runs heap.now dom.old }
    requires dst { dst < 16 }
    requires value { IsPackable (Int value) }
    ensures did { Did heap.now dom.old dom.new (PutInt dst value) result }
    ensures rest { ChangesRegisters dom.old dom.new }
    ensures registers { dom.new.view.own.registers ≡ slice_set dom.old.view.own.registers dst (Int value) }
    ensures holds { Holds heap.now.config dom.new.view.own.registers }
{
    put_int_as(heap, dom, dst, value)
}

fn copy_as(heap: &Heap, dom: &mut Domain, dst: u8, src: u8) -> Reply
    ghost entry: { Entry }
    requires entry { entry ≡ own_entry dom.old (Copy dst src) }
    requires runs { Runs heap.now dom.old }
    requires dst { dst < 16 }
    requires src { src < 16 }
    ensures did { Did heap.now dom.old dom.new (Copy dst src) result }
    ensures rest { ChangesRegisters dom.old dom.new }
    ensures registers { CopiesInto dst src dom.old.view.own.registers dom.new.view.own.registers }
    ensures holds { Holds heap.now.config dom.new.view.own.registers }
{
    let value = dom.register(src);
    tick(heap, dom, 0, &[holds(dst, value)]);
    Reply::Done
}

/// Copies what a register holds, also nothing, into another. The reply is always `Done`. Registers
/// are below 16, the domain's trace hasn't ended, and no finaliser waits in its queue.
pub fn copy(heap: &Heap, dom: &mut Domain, dst: u8, src: u8) -> Reply
    requires runs { Runs heap.now dom.old }
    requires dst { dst < 16 }
    requires src { src < 16 }
    ensures did { Did heap.now dom.old dom.new (Copy dst src) result }
    ensures rest { ChangesRegisters dom.old dom.new }
    ensures registers { CopiesInto dst src dom.old.view.own.registers dom.new.view.own.registers }
    ensures holds { Holds heap.now.config dom.new.view.own.registers }
{
    copy_as(heap, dom, dst, src)
}

fn forget_as(heap: &Heap, dom: &mut Domain, dst: u8) -> Reply
    ghost entry: { Entry }
    requires entry { entry ≡ own_entry dom.old (Forget dst) }
    requires runs { Runs heap.now dom.old }
    requires dst { dst < 16 }
    ensures did { Did heap.now dom.old dom.new (Forget dst) result }
    ensures rest { ChangesRegisters dom.old dom.new }
    ensures registers { dom.new.view.own.registers ≡ slice_set dom.old.view.own.registers dst Nothing }
    ensures holds { Holds heap.now.config dom.new.view.own.registers }
{
    tick(heap, dom, 0, &[holds(dst, Value::Nothing)]);
    Reply::Done
}

/// Empties a register. The reply is always `Done`. Registers are below 16, the domain's trace hasn't
/// ended, and no finaliser waits in its queue.
pub fn forget(heap: &Heap, dom: &mut Domain, dst: u8) -> Reply
    requires runs { Runs heap.now dom.old }
    requires dst { dst < 16 }
    ensures did { Did heap.now dom.old dom.new (Forget dst) result }
    ensures rest { ChangesRegisters dom.old dom.new }
    ensures registers { dom.new.view.own.registers ≡ slice_set dom.old.view.own.registers dst Nothing }
    ensures holds { Holds heap.now.config dom.new.view.own.registers }
{
    forget_as(heap, dom, dst)
}
