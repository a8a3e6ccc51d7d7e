//! The allocation of a block in the major heap.
ghost use Rattle.std.specs.Prelude.{◌≡◌, ◌+◌, ◌^◌, ◌<◌, ◌≤◌, ℕ, slice_set, Some, IfOk, IfErr};
ghost use Rattle.model_core.specs.declared.command.Command.TheVariants.{AllocMaj};
ghost use Rattle.model_core.specs.declared.entry.Entry.{Entry};
ghost use Rattle.model_core.specs.declared.reply.Reply.TheVariants.{Block};
ghost use Rattle.heap_words.specs.declared.value.Value.TheVariants.{Ref};
ghost use Rattle.heap_rule.specs.Running.{Runs, Did, own_entry};
ghost use Rattle.heap_rule.specs.Token.{Holds, IsIn};
ghost use Rattle.do_alloc.specs.Pools.NewMarks.{AreNewMarks};
ghost use Rattle.do_alloc.specs.Pools.Taken.{FoundNoneFor, Grows, IsBusy, IsRoom, MadeBlock};

use crate::pools::new_marks::{NewMarks, new_marks};
use crate::pools::no_pool::NoPool;
use crate::pools::taking::take;
use crate::pools::words::{class_for, write_words};
use heap_rule::{Change, Domain, Heap, Item, Part};
use heap_words::{Head, Value, pack_head, pack_value};
use model_core::label::Label;
use step_pools::head_store;

// Writes a block at the place that is taken: its label, its fields, each the integer 0, and its head
// last, which has the colour and the scanned mark of a new block, by what the domain knows.
fn write_coloured(
    heap: &Heap,
    dom: &mut Domain,
    at: u32,
    dst: u8,
    tag: u8,
    fields: u16,
    marks: NewMarks,
) -> Label
    ghost entry: { Entry }
    requires entry { entry ≡ own_entry dom.old (AllocMaj dst tag fields) }
    requires runs { IsBusy heap.now dom.old }
    requires room { IsRoom heap.now.config dom.old.view at (fields + 2) }
    requires dst { dst < 16 }
    requires tag { tag ≤ 245 }
    requires fields { (1 ≤ fields) × (fields ≤ 1022) }
    requires serial { dom.old.view.own.serial + 1 < 2 ^ 32 }
    requires marks { AreNewMarks dom.old.view marks.colour marks.scanned }
    ensures did { Did heap.now dom.old dom.new (AllocMaj dst tag fields) (Block result) }
    ensures grows { Grows dom.old dom.new }
    ensures free { dom.new.view.seen.free ≡ dom.old.view.seen.free }
    ensures registers { dom.new.view.own.registers ≡ slice_set dom.old.view.own.registers dst (Ref at) }
    ensures holds { Holds heap.now.config dom.new.view.own.registers }
{
    let _limits = heap.config();
    let zero = pack_value(Value::Int(0));
    let label = write_words(heap, dom, at, zero, u32::from(fields));
    let head = Head::Plain {
        size: fields,
        tag,
        colour: marks.colour,
        scanned: marks.scanned,
    };
    let holds = Change::Set {
        part: Part::Register,
        place: u32::from(dst),
        item: Item {
            value: Value::Ref(at),
            number: 0,
            more: 0,
        },
    };
    head_store(heap, dom, at, pack_head(head), &[holds]);
    label
}

// The same, by what this call loads.
fn write_block(heap: &Heap, dom: &mut Domain, at: u32, dst: u8, tag: u8, fields: u16) -> Label
    ghost entry: { Entry }
    requires entry { entry ≡ own_entry dom.old (AllocMaj dst tag fields) }
    requires runs { IsBusy heap.now dom.old }
    requires room { IsRoom heap.now.config dom.old.view at (fields + 2) }
    requires dst { dst < 16 }
    requires tag { tag ≤ 245 }
    requires fields { (1 ≤ fields) × (fields ≤ 1022) }
    requires serial { dom.old.view.own.serial + 1 < 2 ^ 32 }
    ensures did { Did heap.now dom.old dom.new (AllocMaj dst tag fields) (Block result) }
    ensures grows { Grows dom.old dom.new }
    ensures free { dom.new.view.seen.free ≡ dom.old.view.seen.free }
    ensures registers { dom.new.view.own.registers ≡ slice_set dom.old.view.own.registers dst (Ref at) }
    ensures holds { Holds heap.now.config dom.new.view.own.registers }
{
    let marks = new_marks(heap, dom);
    write_coloured(heap, dom, at, dst, tag, fields, marks)
}

/// Allocates a plain block of `fields` fields, each the integer 0, in the major heap, and puts it
/// into register `dst`. Registers are below 16, tags at most 245, fields 1 to 1022, fewer than
/// 4,294,967,295 labels were made, and no finaliser waits in the domain's queue.
///
/// `NoPool` exactly where no own pool of the block's class has a free block, no own pool is left to be
/// swept, and the number of pools that were free at the last look of this call is at most the reserve of
/// promotion. Then no entry stands, and nothing changes but the places that were looked at and what a
/// sweep of own pools changes. Own pools are swept only where a look of this call found no more pools
/// free than the reserve, and it is looked only where no own pool of the class has a free block.
pub fn alloc_major(
    heap: &Heap,
    dom: &mut Domain,
    dst: u8,
    tag: u8,
    fields: u16,
) -> Result<Label, NoPool>
    requires runs { Runs heap.now dom.old }
    requires dst { dst < 16 }
    requires tag { tag ≤ 245 }
    requires fields { (1 ≤ fields) × (fields ≤ 1022) }
    requires serial { dom.old.view.own.serial + 1 < 2 ^ 32 }
    ensures made { IfOk result (λ l. MadeBlock heap.now dst tag fields l dom.old dom.new) }
    ensures none { IfErr result (λ n. FoundNoneFor heap.now.config (fields + 2) n.free dom.old.view dom.new.view) }
    ensures here { IsIn dom.new heap.now }
{
    let class = class_for(usize::from(fields) + 2);
    let at = take(heap, dom, class)?;
    Ok(write_block(heap, dom, at, dst, tag, fields))
}
