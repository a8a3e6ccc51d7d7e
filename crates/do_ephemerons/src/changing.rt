//! Stores to the keys and the data of ephemerons.
ghost use Rattle.std.specs.Prelude.{◌≡◌, ◌<◌, ◌≤◌, ◌^◌, true, false, [], IfSome, Some, None};
ghost use Rattle.model_core.specs.declared.command.Command.{Command};
ghost use Rattle.model_core.specs.declared.command.Command.TheVariants.{SetKey, UnsetKey, SetData, UnsetData};
ghost use Rattle.heap_words.specs.Values.{IsPackable};
ghost use Rattle.heap_rule.specs.Running.{Runs, Did, own_entry};
ghost use Rattle.heap_rule.specs.Standing.{IsInHeap};
ghost use Rattle.heap_rule.specs.Token.{Holds, IsIn};
ghost use Rattle.step_run.specs.Fields.Stores.{StoreTold};
ghost use Rattle.step_ephemerons.specs.Commands.Heads.{key_in};
ghost use Rattle.step_ephemerons.specs.Commands.Loads.{word_of};
ghost use Rattle.step_ephemerons.specs.Commands.Stores.{WeakStoreMay};
ghost use Rattle.do_ephemerons.specs.Items.{FitsItem, IsChange, LacksItem, item_in, value_of};
ghost use Rattle.do_ephemerons.specs.Naming.{LooksInto};
ghost use Rattle.do_ephemerons.specs.Words.{WordRemembers};

use crate::finding::{find, refuse, word_at};
use do_fields::fields::must_remember;
use heap_rule::{Domain, Heap};
use heap_words::{Value, pack_value};
use model_core::reply::Reply;
use step_ephemerons::commands::{data_store, key_store};

// A store to the word that a command names, with its entry.
fn store_word(
    heap: &Heap,
    dom: &mut Domain,
    block: u32,
    key: Option<u16>,
    word: u64,
    remembers: bool,
)
    ghost command: { Command }
    requires here { IsIn dom.old heap.now }
    requires small { block < 2 ^ 24 }
    requires inside { IsInHeap heap.now.config (word_of key block) }
    requires changes { IsChange command }
    requires key { key_in command ≡ key }
    requires may { WeakStoreMay heap.now.config dom.old.view (word_of key block) word remembers [] dom.old.view.own.number command }
    ensures here { IsIn dom.new heap.now }
    ensures told { StoreTold heap.now.config (own_entry dom.old command) (word_of key block) remembers [] dom.old.view dom.new.view }
{
    let at = word_at(block, key);
    match key {
        Some(_) => key_store(heap, dom, at, word, remembers, &[]),
        None => data_store(heap, dom, at, word, remembers, &[]),
    }
}

// What a command sets: what the register of its item holds, or nothing.
fn item_value(dom: &Domain, item: Option<u8>) -> Value
    requires { IfSome item (λ r. r < 16) }
    ensures value { result ≡ value_of dom.now.view.own.registers item }
    ensures packable { IsPackable result }
{
    match item {
        Some(r) => dom.register(r),
        None => Value::Nothing,
    }
}

// Whether a command has nothing that it can set: a key is a block, and a datum is something.
fn lacks_item(key: Option<u16>, item: Option<u8>, value: Value) -> bool
    ensures lacks { result ≡ true → LacksItem key item value }
    ensures fits { result ≡ false → FitsItem key item value }
{
    match value {
        Value::Ref(_) => false,
        Value::Int(_) => item.is_some() && key.is_some(),
        Value::Nothing => item.is_some(),
    }
}

// A store to the word that a command names, of what its item's register holds, or of nothing.
fn put(heap: &Heap, dom: &mut Domain, ephe: u8, key: Option<u16>, item: Option<u8>) -> Reply
    ghost command: { Command }
    requires runs { Runs heap.now dom.old }
    requires looks { LooksInto command ephe key }
    requires changes { IsChange command }
    requires item { item_in command ≡ item }
    requires room { IfSome item (λ r. 1 ≤ dom.old.view.own.remembered.room) }
    ensures did { Did heap.now dom.old dom.new command result }
    ensures remembers { WordRemembers heap.now.config result ephe key item dom.old dom.new }
    ensures holds { Holds heap.now.config dom.new.view.own.registers }
{
    let _limits = heap.config();
    let value = item_value(dom, item);
    if lacks_item(key, item, value) {
        return refuse(heap, dom);
    }
    let block = match find(heap, dom, ephe, key) {
        Ok(block) => block,
        Err(refusal) => return refusal,
    };
    let remembers = must_remember(heap, block, value);
    store_word(heap, dom, block, key, pack_value(value), remembers);
    Reply::Done
}

/// Sets a key of the ephemeron in a register to the block in another. The reply is `type` where
/// register `ephe` holds no ephemeron or register `item` no block, and else `bounds` where the
/// ephemeron has no such key. A key of an ephemeron in a pool that is set to a block in a minor area
/// is one more word that the domain remembers. Registers are below 16, the domain's trace hasn't
/// ended, no finaliser waits in its queue, and it has room for one more.
pub fn set_key(heap: &Heap, dom: &mut Domain, ephe: u8, index: u16, item: u8) -> Reply
    requires runs { Runs heap.now dom.old }
    requires ephe { ephe < 16 }
    requires item { item < 16 }
    requires room { 1 ≤ dom.old.view.own.remembered.room }
    ensures did { Did heap.now dom.old dom.new (SetKey ephe index item) result }
    ensures remembers { WordRemembers heap.now.config result ephe (Some index) (Some item) dom.old dom.new }
    ensures holds { Holds heap.now.config dom.new.view.own.registers }
{
    put(heap, dom, ephe, Some(index), Some(item))
}

/// Empties a key of the ephemeron in a register. The reply is `type` where the register holds no
/// ephemeron, and else `bounds` where it has no such key. What the domain owns stays as it is.
/// Registers are below 16, the domain's trace hasn't ended, and no finaliser waits in its queue.
pub fn unset_key(heap: &Heap, dom: &mut Domain, ephe: u8, index: u16) -> Reply
    requires runs { Runs heap.now dom.old }
    requires ephe { ephe < 16 }
    ensures did { Did heap.now dom.old dom.new (UnsetKey ephe index) result }
    ensures same { dom.new.view.own ≡ dom.old.view.own }
    ensures holds { Holds heap.now.config dom.new.view.own.registers }
{
    put(heap, dom, ephe, Some(index), None)
}

/// Sets the datum of the ephemeron in a register to what another holds. The reply is `type` where
/// register `ephe` holds no ephemeron or register `item` holds nothing. The datum of an ephemeron in
/// a pool that is set to a block in a minor area is one more word that the domain remembers.
/// Registers are below 16, the domain's trace hasn't ended, no finaliser waits in its queue, and it
/// has room for one more.
pub fn set_data(heap: &Heap, dom: &mut Domain, ephe: u8, item: u8) -> Reply
    requires runs { Runs heap.now dom.old }
    requires ephe { ephe < 16 }
    requires item { item < 16 }
    requires room { 1 ≤ dom.old.view.own.remembered.room }
    ensures did { Did heap.now dom.old dom.new (SetData ephe item) result }
    ensures remembers { WordRemembers heap.now.config result ephe None (Some item) dom.old dom.new }
    ensures holds { Holds heap.now.config dom.new.view.own.registers }
{
    put(heap, dom, ephe, None, Some(item))
}

/// Empties the datum of the ephemeron in a register. The reply is `type` where the register holds no
/// ephemeron. What the domain owns stays as it is. Registers are below 16, the domain's trace hasn't
/// ended, and no finaliser waits in its queue.
pub fn unset_data(heap: &Heap, dom: &mut Domain, ephe: u8) -> Reply
    requires runs { Runs heap.now dom.old }
    requires ephe { ephe < 16 }
    ensures did { Did heap.now dom.old dom.new (UnsetData ephe) result }
    ensures same { dom.new.view.own ≡ dom.old.view.own }
    ensures holds { Holds heap.now.config dom.new.view.own.registers }
{
    put(heap, dom, ephe, None, None)
}
