//! The compare-and-set of a field of a block, plain or raw.
ghost use Rattle.std.specs.Prelude.{◌≡◌, ◌<◌, ◌≤◌};
ghost use Rattle.model_core.specs.declared.command.Command.TheVariants.{Cas};
ghost use Rattle.model_core.specs.declared.entry.Entry.{Entry};
ghost use Rattle.heap_rule.specs.Changes.{value_at};
ghost use Rattle.heap_rule.specs.Running.{Runs, Did, own_entry};
ghost use Rattle.heap_rule.specs.Token.{Holds, IsIn};
ghost use Rattle.heap_rule.specs.declared.phase.Kind.TheVariants.{Run};
ghost use Rattle.heap_rule.specs.declared.phase.Stage.TheVariants.{In};
ghost use Rattle.step_marks.specs.Beside.Marking.{Reason, Expected};
ghost use Rattle.do_fields.specs.Darkening.Aware.{Learnt};
ghost use Rattle.step_run.specs.Exchange.Exchanges.{ExpectedMarked};
ghost use Rattle.do_fields.specs.Fields.Remembered.{CasRemembers};

use crate::darkening::darken_now;
use crate::fields::fields::{fields_for, must_remember};
use heap_rule::{Domain, Heap};
use heap_words::classes::POOL_WORDS;
use heap_words::{Value, pack_value};
use model_core::reply::Reply;
use step_marks::marking::armed_now;
use step_run::exchange::field_exchange;
use step_run::fields::{head_load, tick};

// Marks what a compare-and-set expects in a field, where a cycle goes on beside running domains and it
// is a block of the pools: where the exchange is made, the field no longer refers to it.
fn darken_expected(heap: &Heap, dom: &mut Domain, r: u8)
    ghost reason: { Reason }
    requires reason { reason ≡ Expected r }
    requires here { IsIn dom.old heap.now }
    requires runs { dom.old.view.seen.stage ≡ In Run }
    requires few { r < 16 }
    ensures here { IsIn dom.new heap.now }
    ensures learnt { Learnt dom.old.view dom.new.view }
    ensures owes { dom.new.view.seen.share.weak ≡ dom.old.view.seen.share.weak }
    ensures barrier { ExpectedMarked heap.now.config dom.new.view.seen.share (value_at dom.old.view.own.registers r) }
{
    if !armed_now(heap, dom) {
        return;
    }
    let pools = heap.config().pools * POOL_WORDS;
    match dom.register(r) {
        Value::Ref(address) if address <= pools => darken_now(heap, dom, address),
        _ => {}
    }
}

#[inline(always)]
fn cas_as(heap: &Heap, dom: &mut Domain, block: u8, index: u16, expected: u8, item: u8) -> Reply
    ghost entry: { Entry }
    requires entry { entry ≡ own_entry dom.old (Cas block index expected item) }
    requires runs { Runs heap.now dom.old }
    requires block { block < 16 }
    requires expected { expected < 16 }
    requires item { item < 16 }
    requires room { 1 ≤ dom.old.view.own.remembered.room }
    ensures did { Did heap.now dom.old dom.new (Cas block index expected item) result }
    ensures remembers { CasRemembers heap.now.config result block index item dom.old dom.new }
    ensures holds { Holds heap.now.config dom.new.view.own.registers }
{
    let _limits = heap.config();
    let Value::Ref(address) = dom.register(block) else {
        tick(heap, dom, 0, &[]);
        return Reply::BadType;
    };
    let wanted = dom.register(expected);
    if let Value::Nothing = wanted {
        tick(heap, dom, 0, &[]);
        return Reply::BadType;
    }
    let value = dom.register(item);
    if let Value::Nothing = value {
        tick(heap, dom, 0, &[]);
        return Reply::BadType;
    }
    let head = head_load(heap, dom, address, &[]);
    let Some(size) = fields_for(head, value) else {
        return Reply::BadType;
    };
    if index >= size {
        return Reply::BadIndex;
    }
    darken_expected(heap, dom, expected);
    let at = address + 2 + index as u32;
    let remembers = must_remember(heap, address, value);
    let old = pack_value(wanted);
    let found = field_exchange(heap, dom, at, old, pack_value(value), remembers, &[]);
    if found == old { Reply::Yes } else { Reply::No }
}

/// Where a field of the block in register `block` equals what register `expected` holds, it becomes
/// what register `item` holds: the reply is `yes` where it was written, and else `no`. Equal means the
/// same integer or the same block. The reply is `type` where register `block` holds no plain or raw
/// block, register `expected` or `item` holds nothing, or the block is a raw one and register `item`
/// holds a block, and else `bounds` where the block has no such field. While a cycle goes on beside
/// running domains, the block that register `expected` holds is marked before the one exchange. A field
/// of a block in a pool that gets a block in a minor area is one more that the domain remembers.
/// Registers are below 16, the domain's trace hasn't ended, no finaliser waits in its queue, and it has
/// room for one more field.
#[inline(always)]
pub fn cas(heap: &Heap, dom: &mut Domain, block: u8, index: u16, expected: u8, item: u8) -> Reply
    requires runs { Runs heap.now dom.old }
    requires block { block < 16 }
    requires expected { expected < 16 }
    requires item { item < 16 }
    requires room { 1 ≤ dom.old.view.own.remembered.room }
    ensures did { Did heap.now dom.old dom.new (Cas block index expected item) result }
    ensures remembers { CasRemembers heap.now.config result block index item dom.old dom.new }
    ensures holds { Holds heap.now.config dom.new.view.own.registers }
{
    cas_as(heap, dom, block, index, expected, item)
}
