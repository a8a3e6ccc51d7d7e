//! Loads and stores of the fields of blocks, plain or raw.
ghost use Rattle.std.specs.Prelude.{◌≡◌, ◌≢◌, ◌↔◌, ◌<◌, ◌≤◌, ℕ, true, Option};
ghost use Rattle.model_core.specs.declared.command.Command.TheVariants.{Load, Store};
ghost use Rattle.model_core.specs.declared.entry.Entry.{Entry};
ghost use Rattle.model_core.specs.declared.reply.Reply.TheVariants.{Empty};
ghost use Rattle.model_core.specs.declared.graph.Value as model;
ghost use Rattle.model_core.specs.declared.label.Label as labels;
ghost use Rattle.model_core.specs.Commands.{shown};
ghost use Rattle.model_core.specs.Fronts.{Shape};
ghost use Rattle.heap_words.specs.Heads.{IsPackableHead};
ghost use Rattle.heap_words.specs.Labels.{IsPackableLabel, label_word};
ghost use Rattle.heap_rule.specs.Changes.{value_at};
ghost use Rattle.heap_rule.specs.Places.{Shows, IsHeadOf};
ghost use Rattle.heap_rule.specs.Running.{Runs, Did, ChangesRegisters, own_entry};
ghost use Rattle.heap_rule.specs.Token.{Holds, IsIn};
ghost use Rattle.heap_words.specs.declared.value.Value as words;
ghost use Rattle.heap_words.specs.declared.value.Value.TheVariants.{Ref};
ghost use Rattle.step_run.specs.Fields.Stores.{MustRemember};
ghost use Rattle.do_fields.specs.Fields.Registers.{LoadsInto, traced};
ghost use Rattle.do_fields.specs.Fields.Remembered.{StoreRemembers};
ghost use Rattle.do_fields.specs.Fields.Shapes.{size_of, fields_for};

use crate::darkening::overwrite_barrier;
use heap_rule::{Change, Domain, Heap};
use heap_words::classes::POOL_WORDS;
use heap_words::{Head, Value, pack_value, read_head, read_label};
use model_core::label::Label;
use model_core::reply::Reply;
use step_run::fields::{field_load, field_store, head_load, label_load, tick};

/// The number of fields of the block whose head this is, and nothing for an ephemeron.
pub fn field_count(head: u64) -> Option<u16>
    requires { (s : Shape) × IsHeadOf s head }
    ensures { (s : Shape) → IsHeadOf s head → result ≡ size_of s }
{
    match read_head(head) {
        Head::Plain { size, .. } => Some(size),
        Head::Ephe { .. } | Head::Free | Head::Forward(_) => None,
    }
}

// The least tag of a raw block.
const FIRST_RAW: u8 = 251;

/// The number of fields of the block whose head this is, where it takes the value into them. Nothing
/// for an ephemeron, and for a raw block where the value is a block.
pub fn fields_for(head: u64, value: Value) -> Option<u16>
    requires { (s : Shape) × IsHeadOf s head }
    ensures { (s : Shape) → IsHeadOf s head → result ≡ fields_for s value }
{
    match read_head(head) {
        Head::Plain { size, tag, .. } => match value {
            Value::Ref(_) if FIRST_RAW <= tag => None,
            _ => Some(size),
        },
        Head::Ephe { .. } | Head::Free | Head::Forward(_) => None,
    }
}

// The label whose word this is.
fn label_of_word(word: u64) -> Label
    requires { (l : labels.Label) × IsPackableLabel (l.domain, l.serial) × (label_word l.domain l.serial ≡ word) }
    ensures { (l : labels.Label) → IsPackableLabel (l.domain, l.serial) → label_word l.domain l.serial ≡ word → result ≡ l }
{
    let (domain, serial) = read_label(word);
    Label { domain, serial }
}

/// The reply that shows what a register holds: `int` with an integer, `blk` with the label of a
/// block, or `none`. The register is below 16, and the domain knows that its trace gave it this
/// value. Nothing changes.
pub fn shown_register(heap: &Heap, dom: &mut Domain, r: u8) -> Reply
    ghost register: { ℕ }
    requires register { register ≡ r }
    requires here { IsIn dom.old heap.now }
    requires few { r < 16 }
    requires shows { Shows (value_at dom.old.view.own.registers r) (traced heap.now.config dom.old.view r) }
    ensures here { IsIn dom.new heap.now }
    ensures same { dom.new.view ≡ dom.old.view }
    ensures reply { result ≡ shown (traced heap.now.config dom.old.view r) }
{
    let _limits = heap.config();
    match dom.register(r) {
        Value::Int(z) => Reply::Int(z),
        Value::Nothing => Reply::Empty,
        Value::Ref(address) => Reply::Block(label_of_word(label_load(heap, dom, address + 1, &[]))),
    }
}

fn load_as(heap: &Heap, dom: &mut Domain, dst: u8, src: u8, index: u16) -> Reply
    ghost entry: { Entry }
    requires entry { entry ≡ own_entry dom.old (Load dst src index) }
    requires runs { Runs heap.now dom.old }
    requires dst { dst < 16 }
    requires src { src < 16 }
    ensures did { Did heap.now dom.old dom.new (Load dst src index) result }
    ensures rest { ChangesRegisters dom.old dom.new }
    ensures registers { LoadsInto heap.now.config dst result dom.old.view.own.registers dom.new.view.own.registers }
    ensures holds { Holds heap.now.config dom.new.view.own.registers }
{
    let _limits = heap.config();
    let Value::Ref(address) = dom.register(src) else {
        tick(heap, dom, 0, &[]);
        return Reply::BadType;
    };
    let Some(size) = field_count(head_load(heap, dom, address, &[])) else {
        return Reply::BadType;
    };
    if index >= size {
        return Reply::BadIndex;
    }
    let at = address + 2 + index as u32;
    field_load(heap, dom, at, &[Change::Read { register: dst }]);
    shown_register(heap, dom, dst)
}

/// Loads a field of the block in a register into another. The reply is `type` where register `src`
/// holds no plain or raw block, and else `bounds` where the block has no such field: then the
/// registers stay as they are. Else register `dst` holds what the field does, and the reply shows
/// it: an integer or the label of a block, since no field holds nothing. Registers are below 16, the
/// domain's trace hasn't ended, and no finaliser waits in its queue.
pub fn load(heap: &Heap, dom: &mut Domain, dst: u8, src: u8, index: u16) -> Reply
    requires runs { Runs heap.now dom.old }
    requires dst { dst < 16 }
    requires src { src < 16 }
    ensures did { Did heap.now dom.old dom.new (Load dst src index) result }
    ensures full { result ≢ Empty }
    ensures rest { ChangesRegisters dom.old dom.new }
    ensures registers { LoadsInto heap.now.config dst result dom.old.view.own.registers dom.new.view.own.registers }
    ensures holds { Holds heap.now.config dom.new.view.own.registers }
{
    load_as(heap, dom, dst, src, index)
}

/// Whether a word of the block at an address must be remembered once it gets the value: the block
/// lies in a pool, and the value is a block in a minor area.
pub fn must_remember(heap: &Heap, block: u32, value: Value) -> bool
    ensures { (result ≡ true) ↔ MustRemember heap.now.config (Ref block) value }
{
    let config = heap.config();
    let pools = config.pools * POOL_WORDS;
    match value {
        Value::Ref(address) => block <= pools && pools < address,
        _ => false,
    }
}

#[inline(always)]
fn store_as(heap: &Heap, dom: &mut Domain, block: u8, index: u16, item: u8) -> Reply
    ghost entry: { Entry }
    requires entry { entry ≡ own_entry dom.old (Store block index item) }
    requires runs { Runs heap.now dom.old }
    requires block { block < 16 }
    requires item { item < 16 }
    requires room { 1 ≤ dom.old.view.own.remembered.room }
    ensures did { Did heap.now dom.old dom.new (Store block index item) result }
    ensures remembers { StoreRemembers heap.now.config result block index item dom.old dom.new }
    ensures holds { Holds heap.now.config dom.new.view.own.registers }
{
    let _limits = heap.config();
    let Value::Ref(address) = dom.register(block) else {
        tick(heap, dom, 0, &[]);
        return Reply::BadType;
    };
    let value = dom.register(item);
    if let Value::Nothing = value {
        tick(heap, dom, 0, &[]);
        return Reply::BadType;
    }
    let head = head_load(heap, dom, address, &[]);
    let Some(size) = fields_for(head, value) else {
        return Reply::BadType;
    };
    if index >= size {
        return Reply::BadIndex;
    }
    overwrite_barrier(heap, dom, address, u32::from(index));
    let at = address + 2 + index as u32;
    let remembers = must_remember(heap, address, value);
    field_store(heap, dom, at, pack_value(value), remembers, &[]);
    Reply::Done
}

/// Stores what a register holds into a field of the block in another. The reply is `type` where
/// register `block` holds no plain or raw block, register `item` holds nothing, or the block is a raw
/// one and register `item` holds a block, and else `bounds` where the block has no such field. While a cycle goes on beside running domains, what the field
/// refers to is marked before it is overwritten. A field of a block in a pool that gets a block in a
/// minor area is one more that the domain remembers. Registers are below 16, the domain's trace hasn't ended, no
/// finaliser waits in its queue, and it has room for one more field.
#[inline(always)]
pub fn store(heap: &Heap, dom: &mut Domain, block: u8, index: u16, item: u8) -> Reply
    requires runs { Runs heap.now dom.old }
    requires block { block < 16 }
    requires item { item < 16 }
    requires room { 1 ≤ dom.old.view.own.remembered.room }
    ensures did { Did heap.now dom.old dom.new (Store block index item) result }
    ensures remembers { StoreRemembers heap.now.config result block index item dom.old dom.new }
    ensures holds { Holds heap.now.config dom.new.view.own.registers }
{
    store_as(heap, dom, block, index, item)
}
