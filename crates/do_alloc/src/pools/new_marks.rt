//! The colour and the scanned mark of a new block.
ghost use Rattle.std.specs.Prelude.{◌≡◌};
ghost use Rattle.heap_words.specs.declared.colours.Colours.{Colours};
ghost use Rattle.heap_rule.specs.declared.phase.Kind.TheVariants.{Run};
ghost use Rattle.heap_rule.specs.declared.phase.Stage.TheVariants.{In};
ghost use Rattle.heap_rule.specs.Token.{IsIn};
ghost use Rattle.step_marks.specs.Marking.Arming.{knowing_armed};
ghost use Rattle.step_marks.specs.Marking.Looks.{knowing_colours};
ghost use Rattle.do_alloc.specs.Pools.NewMarks.{AreNewMarks};

use heap_rule::{Domain, Heap};
use step_marks::marking::{armed_now, colours_now};

// What the head of a new block says besides its shape.
#[derive(Clone, Copy)]
pub(crate) struct NewMarks {
    pub(crate) colour: u8,
    pub(crate) scanned: bool,
}

// While a cycle goes on beside running domains a block of the pools is allocated marked and scanned
// ("Retrofitting Parallelism onto OCaml", section 4.3). Otherwise it is unmarked.
pub(crate) fn new_marks(heap: &Heap, dom: &mut Domain) -> NewMarks
    requires here { IsIn dom.old heap.now }
    requires runs { dom.old.view.seen.stage ≡ In Run }
    ensures here { IsIn dom.new heap.now }
    ensures marks { AreNewMarks dom.new.view result.colour result.scanned }
    ensures knows { (c : Colours) × (dom.new.view ≡ knowing_armed (knowing_colours dom.old.view c) result.scanned) }
{
    let colours = colours_now(heap, dom);
    let armed = armed_now(heap, dom);
    NewMarks {
        colour: if armed {
            colours.marked
        } else {
            colours.unmarked
        },
        scanned: armed,
    }
}
