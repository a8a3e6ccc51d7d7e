//! What the roots of a domain refer to is marked.
ghost use Rattle.std.specs.Prelude.{◌≡◌, ◌+◌, ◌<◌, Some, length};
ghost use Rattle.heap_words.specs.ColourWords.{IsPermutation};
ghost use Rattle.heap_rule.specs.declared.phase.Kind.TheVariants.{Roots};
ghost use Rattle.heap_rule.specs.declared.phase.Stage.TheVariants.{In};
ghost use Rattle.heap_rule.specs.Token.{IsIn};
ghost use Rattle.step_marks.specs.Marking.Marking.{Reason, Register};
ghost use Rattle.step_marks.specs.Marking.Looks.{HeldInside};
ghost use Rattle.gc_mark.specs.Decks.{NotesAlone, NotesAtMost, NotesOn};
ghost use Rattle.gc_mark.specs.Shares.{NotesDarkenings, Rooted, AllRooted, AllQueueRooted};

use crate::darkening::darken;
use crate::deck::Deck;
use crate::hints::Hints;
use crate::queue::mark_queued;
use heap_rule::{Domain, Heap};
use heap_words::{Colours, Value};
use step_marks::marking::colours_now;

// Marks the block that a register refers to, if it refers to one, and notes it where this domain has
// marked it.
fn mark_root(heap: &Heap, dom: &mut Domain, register: u8, colours: Colours, hints: &mut Hints)
    ghost reason: { Reason }
    requires here { IsIn dom.old heap.now }
    requires stage { dom.old.view.seen.stage ≡ In Roots }
    requires known { dom.old.view.seen.share.colours ≡ Some colours }
    requires meanings { IsPermutation colours }
    requires register { register < 16 }
    requires names { reason ≡ Register register }
    ensures here { IsIn dom.new heap.now }
    ensures rooted { Rooted register dom.old.view dom.new.view }
    ensures notes { NotesOn hints.old hints.new }
    ensures noted { NotesDarkenings dom.old.view dom.new.view hints.old hints.new }
    ensures alone { NotesAlone hints.old hints.new }
    ensures few { NotesAtMost 1 hints.old hints.new }
{
    let _limits = heap.config();
    if let Value::Ref(at) = dom.register(register) {
        if let Some(hint) = darken(heap, dom, at, colours) {
            hints.push(hint);
        }
    }
}

// The same for each block that the queue keeps alive.
fn mark_waiting(heap: &Heap, dom: &mut Domain, colours: Colours, hints: &mut Hints)
    requires here { IsIn dom.old heap.now }
    requires stage { dom.old.view.seen.stage ≡ In Roots }
    requires known { dom.old.view.seen.share.colours ≡ Some colours }
    requires meanings { IsPermutation colours }
    requires inside { HeldInside heap.now.config dom.old.view.own.finalisers }
    ensures here { IsIn dom.new heap.now }
    ensures queued { AllQueueRooted dom.old.view dom.new.view }
    ensures notes { NotesOn hints.old hints.new }
    ensures noted { NotesDarkenings dom.old.view dom.new.view hints.old hints.new }
    ensures alone { NotesAlone hints.old hints.new }
    ensures few { NotesAtMost (length dom.old.view.own.finalisers.queue.items) hints.old hints.new }
{
    let _limits = heap.config();
    for place in 0..dom.queued() {
        if let Some(hint) = mark_queued(heap, dom, place, colours) {
            hints.push(hint);
        }
    }
}

/// A domain's share of the phase with which a collection of the major heap begins: each block that one
/// of its registers refers to is marked, and each that its queue of finalisers keeps alive. Afterwards
/// the domain is done with all these registers and places of the queue, as is asked of it where it
/// arrives. What it knows of the colours, of the queue and of blocks is all that has changed.
///
/// The hint of each block that it has marked itself is noted in `hints`, and nothing else: at most one
/// for each register and one for each place of its queue.
///
/// There are no other roots: a program of commands has no stack ("Retrofitting Parallelism
/// onto OCaml", section 3.2).
pub fn start_roots(heap: &Heap, dom: &mut Domain, hints: &mut Hints)
    requires here { IsIn dom.old heap.now }
    requires stage { dom.old.view.seen.stage ≡ In Roots }
    ensures here { IsIn dom.new heap.now }
    ensures rooted { AllRooted dom.old.view dom.new.view }
    ensures notes { NotesOn hints.old hints.new }
    ensures noted { NotesDarkenings dom.old.view dom.new.view hints.old hints.new }
    ensures alone { NotesAlone hints.old hints.new }
    ensures few { NotesAtMost (16 + length dom.old.view.own.finalisers.queue.items) hints.old hints.new }
{
    let colours = colours_now(heap, dom);
    for register in 0..16 {
        mark_root(heap, dom, register, colours, hints);
    }
    mark_waiting(heap, dom, colours, hints);
}
