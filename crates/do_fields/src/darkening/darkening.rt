//! The darkening of a block beside running domains.
ghost use Rattle.std.specs.Prelude.{◌≡◌};
ghost use Rattle.heap_words.specs.ColourWords.{IsPermutation};
ghost use Rattle.heap_rule.specs.declared.view.Known.TheVariants.{Marked};
ghost use Rattle.heap_rule.specs.Beside.{IsKnown};
ghost use Rattle.heap_rule.specs.Standing.{IsInHeap};
ghost use Rattle.heap_rule.specs.Token.{IsIn};
ghost use Rattle.step_marks.specs.Beside.Marking.{Reason, weak_on};
ghost use Rattle.do_fields.specs.Darkening.Aware.{DarkenedAt, DarkensBeside, Learnt, OughtToDarken};

use crate::darkening::heads::darkened_head;
use heap_rule::{Domain, Heap};
use heap_words::Colours;
use step_marks::beside::{beside_darken, beside_target_load};
use step_marks::marking::colours_now;

/// Marks the block of the pools at `at`, while a cycle goes on beside running domains: a field may have
/// referred to it when the roots had been darkened, or a weak read has brought it into a register. The
/// domain runs, and knows the colours and the armed word. Afterwards the block is marked, and where a
/// weak read brought it the domain owes its darkening no more. Answers whether this domain has marked
/// it, and not another before.
pub fn darken_beside(heap: &Heap, dom: &mut Domain, at: u32, colours: Colours) -> bool
    ghost reason: { Reason }
    requires here { IsIn dom.old heap.now }
    requires inside { IsInHeap heap.now.config at }
    requires meanings { IsPermutation colours }
    requires darkens { DarkensBeside heap.now.config colours at reason dom.old.view }
    ensures here { IsIn dom.new heap.now }
    ensures learnt { Learnt dom.old.view dom.new.view }
    ensures darkened { DarkenedAt at reason result dom.old.view dom.new.view }
{
    let word = beside_target_load(heap, dom, at);
    let Some(new) = darkened_head(word, colours) else {
        return false;
    };
    beside_darken(heap, dom, at, word, new) == word
}

/// The same by a domain that doesn't know the colours yet, and doesn't ask whether it has darkened the
/// block itself. It stands out of line, since mostly no cycle goes on where a command is made.
#[inline(never)]
pub fn darken_now(heap: &Heap, dom: &mut Domain, at: u32)
    ghost reason: { Reason }
    requires here { IsIn dom.old heap.now }
    requires inside { IsInHeap heap.now.config at }
    requires ought { OughtToDarken heap.now.config at reason dom.old.view }
    ensures here { IsIn dom.new heap.now }
    ensures learnt { Learnt dom.old.view dom.new.view }
    ensures marked { IsKnown dom.new.view.seen.share.known (Marked at) }
    ensures owes { dom.new.view.seen.share.weak ≡ weak_on reason dom.old.view.seen.share.weak }
{
    let _limits = heap.config();
    let colours = colours_now(heap, dom);
    darken_beside(heap, dom, at, colours);
}
