//! The meanings of the colours.
ghost use Rattle.std.specs.Prelude.{◌≡◌};
ghost use Rattle.heap_words.specs.ColourWords.{IsPermutation};
ghost use Rattle.heap_rule.specs.Token.{IsIn};
ghost use Rattle.heap_rule.specs.Cycles.{MayLook};
ghost use Rattle.step_marks.specs.Marking.Looks.{HeldInside, knowing_colours};

use crate::marking::looking::colours_load;
use heap_rule::{Domain, Heap};
use heap_words::{Colours, read_colours};

/// Which colours mean marked, unmarked and garbage, by a load of this call. They mean it for as long
/// as the domain hasn't arrived. The call also says that the addresses in the domain's lists of
/// finalisers lie in the heap, as they always do.
pub fn colours_now(heap: &Heap, dom: &mut Domain) -> Colours
    requires here { IsIn dom.old heap.now }
    requires acts { MayLook dom.old.view.own.number dom.old.view.seen.stage }
    ensures here { IsIn dom.new heap.now }
    ensures meanings { IsPermutation result }
    ensures knows { dom.new.view ≡ knowing_colours dom.old.view result }
    ensures inside { HeldInside heap.now.config dom.old.view.own.finalisers }
{
    read_colours(colours_load(heap, dom))
}
