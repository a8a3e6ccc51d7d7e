//! Loads of the keys and the data of ephemerons.
ghost use Rattle.std.specs.Prelude.{◌≡◌, ◌<◌, ◌+◌, Option, Some, None};
ghost use Rattle.model_core.specs.declared.command.Command.{Command};
ghost use Rattle.model_core.specs.declared.command.Command.TheVariants.{GetKey, CheckKey, GetData, CheckData};
ghost use Rattle.model_core.specs.declared.graph.Value as model;
ghost use Rattle.heap_words.specs.declared.value.Value as words;
ghost use Rattle.heap_words.specs.Values.{IsPackable, value_word};
ghost use Rattle.heap_rule.specs.Places.{Shows};
ghost use Rattle.heap_rule.specs.Running.{Runs, Did, ChangesRegisters};
ghost use Rattle.heap_rule.specs.Changes.{value_at};
ghost use Rattle.heap_rule.specs.Token.{Holds, IsIn};
ghost use Rattle.heap_rule.specs.declared.phase.Kind.TheVariants.{Run};
ghost use Rattle.heap_rule.specs.declared.phase.Stage.TheVariants.{In};
ghost use Rattle.do_fields.specs.Darkening.Aware.{Learnt};
ghost use Rattle.step_marks.specs.Beside.Marking.{Reason, Weak};
ghost use Rattle.do_fields.specs.Fields.Registers.{LoadsInto};
ghost use Rattle.step_ephemerons.specs.Commands.Loads.{IsLook, full_reply, target_in, weak_on};
ghost use Rattle.do_ephemerons.specs.Naming.{LooksInto};

use crate::finding::{find, word_at};
use do_fields::darkening::darken_now;
use do_fields::fields::shown_register;
use heap_rule::{Change, Domain, Heap};
use heap_words::classes::POOL_WORDS;
use heap_words::{Value, read_value};
use model_core::reply::Reply;
use step_ephemerons::commands::weak_load;
use step_marks::marking::armed_now;

// Marks what a weak read has brought into a register, where a cycle goes on beside running domains and
// it is a block of the pools: the marking may not have come to it, and doesn't follow it from the
// ephemeron.
fn darken_read(heap: &Heap, dom: &mut Domain, r: u8, armed: bool)
    ghost reason: { Reason }
    requires reason { reason ≡ Weak r }
    requires here { IsIn dom.old heap.now }
    requires runs { dom.old.view.seen.stage ≡ In Run }
    requires few { r < 16 }
    requires armed { dom.old.view.seen.share.armed ≡ Some armed }
    requires owes { dom.old.view.seen.share.weak ≡ weak_on heap.now.config armed r (value_at dom.old.view.own.registers r) }
    ensures here { IsIn dom.new heap.now }
    ensures learnt { Learnt dom.old.view dom.new.view }
    ensures paid { dom.new.view.seen.share.weak ≡ None }
{
    let pools = heap.config().pools * POOL_WORDS;
    match dom.register(r) {
        Value::Ref(address) if armed && address <= pools => {
            darken_now(heap, dom, address);
        }
        _ => {}
    }
}

// A load of the word that a command names into the register that it names.
#[inline(always)]
fn get(heap: &Heap, dom: &mut Domain, dst: u8, ephe: u8, key: Option<u16>) -> Reply
    ghost command: { Command }
    requires runs { Runs heap.now dom.old }
    requires looks { LooksInto command ephe key }
    requires loads { IsLook command }
    requires into { target_in command ≡ Some dst }
    requires dst { dst < 16 }
    ensures did { Did heap.now dom.old dom.new command result }
    ensures rest { ChangesRegisters dom.old dom.new }
    ensures registers { LoadsInto heap.now.config dst result dom.old.view.own.registers dom.new.view.own.registers }
    ensures holds { Holds heap.now.config dom.new.view.own.registers }
{
    let _limits = heap.config();
    let block = match find(heap, dom, ephe, key) {
        Ok(block) => block,
        Err(refusal) => return refusal,
    };
    let armed = armed_now(heap, dom);
    weak_load(
        heap,
        dom,
        word_at(block, key),
        &[Change::Read { register: dst }],
    );
    darken_read(heap, dom, dst, armed);
    shown_register(heap, dom, dst)
}

// The reply that tells whether the word is that of a value, and not of nothing.
fn tells_full(word: u64) -> Reply
    requires { (v : words.Value) × IsPackable v × (word ≡ value_word v) }
    ensures { (v : words.Value) (held : model.Value) → IsPackable v → word ≡ value_word v → Shows v held → result ≡ full_reply held }
{
    match read_value(word) {
        Value::Nothing => Reply::No,
        _ => Reply::Yes,
    }
}

// A look at whether the word that a command names is full.
fn check(heap: &Heap, dom: &mut Domain, ephe: u8, key: Option<u16>) -> Reply
    ghost command: { Command }
    requires runs { Runs heap.now dom.old }
    requires looks { LooksInto command ephe key }
    requires loads { IsLook command }
    requires into { target_in command ≡ None }
    ensures did { Did heap.now dom.old dom.new command result }
    ensures same { dom.new.view.own ≡ dom.old.view.own }
    ensures holds { Holds heap.now.config dom.new.view.own.registers }
{
    let _limits = heap.config();
    let block = match find(heap, dom, ephe, key) {
        Ok(block) => block,
        Err(refusal) => return refusal,
    };
    tells_full(weak_load(heap, dom, word_at(block, key), &[]))
}

/// Puts a key of the ephemeron in a register into another. The reply is `type` where register `ephe`
/// holds no ephemeron, and else `bounds` where it has no such key: then the registers stay as they
/// are. Else register `dst` holds the key, which the reply shows, or nothing where it is empty, and
/// the reply is `none`. While a cycle goes on beside running domains, the key is marked before the call
/// returns. Registers are below 16, the domain's trace hasn't ended, and no finaliser waits
/// in its queue.
pub fn get_key(heap: &Heap, dom: &mut Domain, dst: u8, ephe: u8, index: u16) -> Reply
    requires runs { Runs heap.now dom.old }
    requires dst { dst < 16 }
    requires ephe { ephe < 16 }
    ensures did { Did heap.now dom.old dom.new (GetKey dst ephe index) result }
    ensures rest { ChangesRegisters dom.old dom.new }
    ensures registers { LoadsInto heap.now.config dst result dom.old.view.own.registers dom.new.view.own.registers }
    ensures holds { Holds heap.now.config dom.new.view.own.registers }
{
    get(heap, dom, dst, ephe, Some(index))
}

/// Tells whether a key of the ephemeron in a register is full. The reply is `type` where the
/// register holds no ephemeron, and else `bounds` where it has no such key, and else `yes` or `no`.
/// What the domain owns stays as it is. Registers are below 16, the domain's trace hasn't ended, and no
/// finaliser waits in its queue.
pub fn check_key(heap: &Heap, dom: &mut Domain, ephe: u8, index: u16) -> Reply
    requires runs { Runs heap.now dom.old }
    requires ephe { ephe < 16 }
    ensures did { Did heap.now dom.old dom.new (CheckKey ephe index) result }
    ensures same { dom.new.view.own ≡ dom.old.view.own }
    ensures holds { Holds heap.now.config dom.new.view.own.registers }
{
    check(heap, dom, ephe, Some(index))
}

/// Puts the datum of the ephemeron in a register into another. The reply is `type` where register
/// `ephe` holds no ephemeron: then the registers stay as they are. Else register `dst` holds the
/// datum, which the reply shows, or nothing where it is empty, and the reply is `none`. While a cycle
/// goes on beside running domains, a block that it refers to is marked before the call returns. Registers
/// are below 16, the domain's trace hasn't ended, and no finaliser waits in its queue.
pub fn get_data(heap: &Heap, dom: &mut Domain, dst: u8, ephe: u8) -> Reply
    requires runs { Runs heap.now dom.old }
    requires dst { dst < 16 }
    requires ephe { ephe < 16 }
    ensures did { Did heap.now dom.old dom.new (GetData dst ephe) result }
    ensures rest { ChangesRegisters dom.old dom.new }
    ensures registers { LoadsInto heap.now.config dst result dom.old.view.own.registers dom.new.view.own.registers }
    ensures holds { Holds heap.now.config dom.new.view.own.registers }
{
    get(heap, dom, dst, ephe, None)
}

/// Tells whether the datum of the ephemeron in a register is full. The reply is `type` where the
/// register holds no ephemeron, and else `yes` or `no`. What the domain owns stays as it is.
/// Registers are below 16, the domain's trace hasn't ended, and no finaliser waits in its queue.
pub fn check_data(heap: &Heap, dom: &mut Domain, ephe: u8) -> Reply
    requires runs { Runs heap.now dom.old }
    requires ephe { ephe < 16 }
    ensures did { Did heap.now dom.old dom.new (CheckData ephe) result }
    ensures same { dom.new.view.own ≡ dom.old.view.own }
    ensures holds { Holds heap.now.config dom.new.view.own.registers }
{
    check(heap, dom, ephe, None)
}
