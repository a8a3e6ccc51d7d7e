//! The allocation of an ephemeron.
ghost use Rattle.std.specs.Prelude.{◌≡◌, ◌+◌, ◌^◌, ◌<◌, ◌≤◌, ℕ, slice_set, Some, IfOk, IfErr};
ghost use Rattle.model_core.specs.declared.command.Command.TheVariants.{Ephe};
ghost use Rattle.model_core.specs.declared.entry.Entry.{Entry};
ghost use Rattle.model_core.specs.declared.reply.Reply.TheVariants.{Block};
ghost use Rattle.heap_words.specs.declared.value.Value.TheVariants.{Ref};
ghost use Rattle.heap_rule.specs.Running.{Runs, Did, own_entry};
ghost use Rattle.heap_rule.specs.Token.{Holds, IsIn};
ghost use Rattle.do_alloc.specs.Pools.Created.{ListsCreated, MadeEphemeron};
ghost use Rattle.do_alloc.specs.Pools.NewMarks.{AreNewMarks};
ghost use Rattle.do_alloc.specs.Pools.Taken.{FoundNoneFor, IsBusy, IsRoom};

use crate::pools::new_marks::{NewMarks, new_marks};
use crate::pools::no_pool::NoPool;
use crate::pools::taking::take;
use crate::pools::words::{class_for, write_words};
use heap_rule::{Change, Domain, Heap, Item, Part};
use heap_words::{Head, Value, pack_head, pack_value};
use model_core::label::Label;
use step_pools::ephe_store;

// Writes an ephemeron at the place that is taken: its label, its datum and its keys, which are empty,
// and its head last, which has the colour and the scanned mark of a new block, by what the domain
// knows.
fn write_coloured(
    heap: &Heap,
    dom: &mut Domain,
    at: u32,
    dst: u8,
    keys: u16,
    marks: NewMarks,
) -> Label
    ghost entry: { Entry }
    requires entry { entry ≡ own_entry dom.old (Ephe dst keys) }
    requires runs { IsBusy heap.now dom.old }
    requires room { IsRoom heap.now.config dom.old.view at (keys + 3) }
    requires dst { dst < 16 }
    requires keys { (1 ≤ keys) × (keys ≤ 8) }
    requires list { 1 ≤ dom.old.view.own.ephemerons.room }
    requires serial { dom.old.view.own.serial + 1 < 2 ^ 32 }
    requires marks { AreNewMarks dom.old.view marks.colour marks.scanned }
    ensures did { Did heap.now dom.old dom.new (Ephe dst keys) (Block result) }
    ensures lists { ListsCreated at dom.old dom.new }
    ensures free { dom.new.view.seen.free ≡ dom.old.view.seen.free }
    ensures registers { dom.new.view.own.registers ≡ slice_set dom.old.view.own.registers dst (Ref at) }
    ensures holds { Holds heap.now.config dom.new.view.own.registers }
{
    let _limits = heap.config();
    let empty = pack_value(Value::Nothing);
    let label = write_words(heap, dom, at, empty, u32::from(keys) + 1);
    let head = Head::Ephe {
        keys,
        colour: marks.colour,
        scanned: marks.scanned,
    };
    let holds = Change::Set {
        part: Part::Register,
        place: u32::from(dst),
        item: Item {
            value: Value::Ref(at),
            number: 0,
            more: 0,
        },
    };
    ephe_store(heap, dom, at, pack_head(head), &[holds]);
    label
}

// The same, by what this call loads.
fn write_ephemeron(heap: &Heap, dom: &mut Domain, at: u32, dst: u8, keys: u16) -> Label
    ghost entry: { Entry }
    requires entry { entry ≡ own_entry dom.old (Ephe dst keys) }
    requires runs { IsBusy heap.now dom.old }
    requires room { IsRoom heap.now.config dom.old.view at (keys + 3) }
    requires dst { dst < 16 }
    requires keys { (1 ≤ keys) × (keys ≤ 8) }
    requires list { 1 ≤ dom.old.view.own.ephemerons.room }
    requires serial { dom.old.view.own.serial + 1 < 2 ^ 32 }
    ensures did { Did heap.now dom.old dom.new (Ephe dst keys) (Block result) }
    ensures lists { ListsCreated at dom.old dom.new }
    ensures free { dom.new.view.seen.free ≡ dom.old.view.seen.free }
    ensures registers { dom.new.view.own.registers ≡ slice_set dom.old.view.own.registers dst (Ref at) }
    ensures holds { Holds heap.now.config dom.new.view.own.registers }
{
    let marks = new_marks(heap, dom);
    write_coloured(heap, dom, at, dst, keys, marks)
}

/// Makes an ephemeron of `keys` keys, which are empty as its datum is, in the major heap, puts it into
/// register `dst`, and lists it. Registers are below 16, keys 1 to 8, the domain's list has room for
/// one more ephemeron, fewer than 4,294,967,295 labels were made, and no finaliser waits in the
/// domain's queue.
///
/// `NoPool` exactly where no own pool of the ephemeron's class has a free block, no own pool is left to
/// be swept, and the number of pools that were free at that step is at most the reserve of promotion.
/// Then no entry stands, and nothing changes but the places that were looked at and what a sweep of own
/// pools changes.
pub fn create(heap: &Heap, dom: &mut Domain, dst: u8, keys: u16) -> Result<Label, NoPool>
    requires runs { Runs heap.now dom.old }
    requires dst { dst < 16 }
    requires keys { (1 ≤ keys) × (keys ≤ 8) }
    requires list { 1 ≤ dom.old.view.own.ephemerons.room }
    requires serial { dom.old.view.own.serial + 1 < 2 ^ 32 }
    ensures made { IfOk result (λ l. MadeEphemeron heap.now dst keys l dom.old dom.new) }
    ensures none { IfErr result (λ n. FoundNoneFor heap.now.config (keys + 3) n.free dom.old.view dom.new.view) }
    ensures here { IsIn dom.new heap.now }
{
    let class = class_for(usize::from(keys) + 3);
    let at = take(heap, dom, class)?;
    Ok(write_ephemeron(heap, dom, at, dst, keys))
}
