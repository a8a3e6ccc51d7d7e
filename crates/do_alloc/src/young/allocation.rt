//! The allocation of a young block.
ghost use Rattle.std.specs.Prelude.{◌≡◌, ◌+◌, ◌^◌, ◌<◌, ◌≤◌, Bool, slice_set, IfOk, IfErr, OnErr};
ghost use Rattle.model_core.specs.declared.entry.Entry.{Entry};
ghost use Rattle.model_core.specs.declared.reply.Reply.TheVariants.{Block};
ghost use Rattle.heap_words.specs.declared.colours.Colours.{Colours};
ghost use Rattle.heap_words.specs.declared.value.Value.TheVariants.{Ref};
ghost use Rattle.heap_rule.specs.Places.{class_words};
ghost use Rattle.step_run.specs.Young.Inits.{IsOpen};
ghost use Rattle.heap_rule.specs.declared.phase.Kind.TheVariants.{Run};
ghost use Rattle.heap_rule.specs.declared.phase.Stage.TheVariants.{In};
ghost use Rattle.heap_rule.specs.Token.{next_address};
ghost use Rattle.heap_rule.specs.Running.{Runs, Did, own_entry};
ghost use Rattle.heap_rule.specs.Token.{Holds, IsIn};
ghost use Rattle.step_marks.specs.Marking.Arming.{knowing_armed};
ghost use Rattle.step_marks.specs.Marking.Looks.{knowing_colours};
ghost use Rattle.do_alloc.specs.Young.Area.{IsBlockTag, young_command, IsNewColour, Grows, MadeYoung, Needs};

use crate::young::Need;
use heap_rule::{Change, Domain, Heap, Item, Part};
use heap_words::classes::reserve;
use heap_words::{Head, Value, pack_head, pack_label, pack_value};
use model_core::label::Label;
use step_marks::marking::{armed_now, colours_now};
use step_pools::young_look;
use step_run::young::{head_store, word_store, words_of_class};

// The colour of a new block of a minor area. While a cycle goes on beside running domains it is
// marked, as all blocks of minor areas then are, and otherwise unmarked.
fn new_colour(heap: &Heap, dom: &mut Domain) -> u8
    requires here { IsIn dom.old heap.now }
    requires runs { dom.old.view.seen.stage ≡ In Run }
    ensures here { IsIn dom.new heap.now }
    ensures colour { IsNewColour dom.new.view result }
    ensures knows { (c : Colours) × (b : Bool) × (dom.new.view ≡ knowing_armed (knowing_colours dom.old.view c) b) }
{
    let colours = colours_now(heap, dom);
    if armed_now(heap, dom) {
        colours.marked
    } else {
        colours.unmarked
    }
}

// A young block that is to be made: so many fields, and the words of its size class.
#[derive(Clone, Copy)]
struct NewBlock {
    tag: u8,
    fields: u16,
    words: u32,
}

// Writes a block for which there is room, in its area and in the pools: its label, its fields, each
// the integer 0, and its head last, which has the colour of a new block, by what the domain knows.
#[tactic(auto, unfolding(heap_rule::specs::Places::class_words))]
fn write_block(heap: &Heap, dom: &mut Domain, dst: u8, block: NewBlock, colour: u8) -> Label
    ghost entry: { Entry }
    requires entry { entry ≡ own_entry dom.old (young_command dst block.tag block.fields) }
    requires runs { Runs heap.now dom.old }
    requires dst { dst < 16 }
    requires tag { IsBlockTag block.tag }
    requires fields { (1 ≤ block.fields) × (block.fields ≤ 1022) }
    requires words { block.words ≡ class_words (block.fields + 2) }
    requires serial { dom.old.view.own.serial + 1 < 2 ^ 32 }
    requires room { dom.old.view.own.used + class_words (block.fields + 2) ≤ heap.now.config.minor_words }
    requires opened { IsOpen heap.now.config dom.old.view }
    requires colour { IsNewColour dom.old.view colour }
    ensures did { Did heap.now dom.old dom.new (young_command dst block.tag block.fields) (Block result) }
    ensures grows { Grows dom.old dom.new (class_words (block.fields + 2)) }
    ensures free { dom.new.view.seen.free ≡ dom.old.view.seen.free }
    ensures registers { dom.new.view.own.registers ≡ slice_set dom.old.view.own.registers dst (Ref (next_address heap.now.config dom.old.view)) }
    ensures holds { Holds heap.now.config dom.new.view.own.registers }
{
    let _limits = heap.config();
    let NewBlock { tag, fields, words } = block;
    let label = Label {
        domain: dom.number(),
        serial: dom.labels_made() + 1,
    };
    let at = dom.next_address();
    word_store(heap, dom, at + 1, pack_label(label.domain, label.serial));
    for i in 0..u32::from(fields) {
        word_store(heap, dom, at + 2 + i, pack_value(Value::Int(0)));
    }
    let head = Head::Plain {
        size: fields,
        tag,
        colour,
        scanned: false,
    };
    let holds = Change::Set {
        part: Part::Register,
        place: u32::from(dst),
        item: Item {
            value: Value::Ref(at),
            number: 0,
            more: 0,
        },
    };
    head_store(heap, dom, at, words, pack_head(head), &[holds]);
    label
}

/// Allocates a block of `fields` fields, each the integer 0, in the domain's minor area, and puts it
/// into register `dst`: a plain block where the tag is at most 245, and a raw one where it is 251 to
/// 255. It is one of these. Registers are below 16, fields 1 to 1022, fewer than 4,294,967,295 labels
/// were made, and no finaliser waits in the domain's queue.
///
/// `AreaFull` exactly where the words that are used and those of the block's size class are more
/// than a minor area has. `Closed` exactly where the area has room and fewer pools are free, by the one
/// look of this call, than promotion may need. After both no entry stands, and nothing changes.
pub fn alloc_young(
    heap: &Heap,
    dom: &mut Domain,
    dst: u8,
    tag: u8,
    fields: u16,
) -> Result<Label, Need>
    requires runs { Runs heap.now dom.old }
    requires dst { dst < 16 }
    requires tag { IsBlockTag tag }
    requires fields { (1 ≤ fields) × (fields ≤ 1022) }
    requires serial { dom.old.view.own.serial + 1 < 2 ^ 32 }
    ensures made { IfOk result (λ l. MadeYoung heap.now dst tag fields l dom.old dom.new) }
    ensures needs { IfErr result (λ need. Needs heap.now dom.old dom.new fields need) }
    ensures runs { OnErr result (Runs heap.now dom.new) }
{
    let config = heap.config();
    let used = dom.area_used();
    let words = words_of_class(usize::from(fields) + 2);
    if words > config.minor_words - used {
        return Err(Need::AreaFull { used });
    }
    let free = young_look(heap, dom) as u32;
    if free < reserve(config.domains, config.minor_words) {
        return Err(Need::Closed { free });
    }
    let colour = new_colour(heap, dom);
    let block = NewBlock { tag, fields, words };
    Ok(write_block(heap, dom, dst, block, colour))
}
