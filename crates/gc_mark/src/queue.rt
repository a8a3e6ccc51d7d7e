//! What the queue of a domain keeps alive is marked.
ghost use Rattle.std.specs.Prelude.{◌≡◌, ◌+◌, ◌<◌, Some, MatchOption, false, is_some, [], length};
ghost use Rattle.heap_words.specs.ColourWords.{IsPermutation};
ghost use Rattle.heap_rule.specs.declared.phase.Kind.TheVariants.{Queued};
ghost use Rattle.heap_rule.specs.declared.phase.Stage.TheVariants.{In};
ghost use Rattle.heap_rule.specs.Token.{IsIn};
ghost use Rattle.step_marks.specs.Marking.Looks.{HeldInside};
ghost use Rattle.step_marks.specs.Marking.Marking.{OfQueue, Reason};
ghost use Rattle.gc_mark.specs.Shares.{AllQueueRooted, MarksRoots, QueueRooted};

use crate::darkening::{Hint, darken};
use heap_rule::{Domain, Heap, Waiting};
use heap_words::Colours;
use step_marks::marking::{changed_store, colours_now};

// Marks the block that a place of the queue keeps alive, if it keeps one. Answers its hint where this
// domain has marked it.
pub(crate) fn mark_queued(
    heap: &Heap,
    dom: &mut Domain,
    place: usize,
    colours: Colours,
) -> Option<Hint>
    ghost reason: { Reason }
    requires here { IsIn dom.old heap.now }
    requires phase { MarksRoots dom.old.view.seen.stage }
    requires known { dom.old.view.seen.share.colours ≡ Some colours }
    requires meanings { IsPermutation colours }
    requires place { place < length dom.old.view.own.finalisers.queue.items }
    requires inside { HeldInside heap.now.config dom.old.view.own.finalisers }
    requires names { reason ≡ OfQueue place }
    ensures here { IsIn dom.new heap.now }
    ensures rooted { QueueRooted place (is_some result) dom.old.view dom.new.view }
    ensures marked { MatchOption result (dom.new.view.seen.share.darkenings ≡ dom.old.view.seen.share.darkenings) (λ _. dom.new.view.seen.share.darkenings ≡ dom.old.view.seen.share.darkenings + 1) }
{
    let Waiting::Fin { address, .. } = dom.queue_at(place) else {
        return None;
    };
    darken(heap, dom, address, colours)
}

/// Each block that the domain's queue of finalisers keeps alive is marked, in the phase behind the one in
/// which registrations were queued. Where the domain has marked one it stores so in the changed word: all
/// was marked before that marked blocks lead to. Afterwards the domain is done with all places of the
/// queue and owes no store of the changed word, as is asked of it where it arrives. What it knows of the
/// colours, of the queue and of blocks is all that has changed.
///
/// A block that waits for its `finalise` lives on until it has run. One of `finalise_last` is dead
/// already, and nothing of it is marked (OCaml manual, module `Gc`).
pub fn mark_queue(heap: &Heap, dom: &mut Domain)
    requires here { IsIn dom.old heap.now }
    requires stage { dom.old.view.seen.stage ≡ In Queued }
    requires told { dom.old.view.seen.share.owes ≡ false }
    requires followed { dom.old.view.seen.share.account ≡ [] }
    ensures here { IsIn dom.new heap.now }
    ensures queued { AllQueueRooted dom.old.view dom.new.view }
{
    let colours = colours_now(heap, dom);
    let mut darkened = false;
    for place in 0..dom.queued() {
        darkened |= mark_queued(heap, dom, place, colours).is_some();
    }
    if darkened {
        changed_store(heap, dom);
    }
}
