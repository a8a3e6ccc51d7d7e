//! The marking of a block, and the hint that tells of it.
ghost use Rattle.std.specs.Prelude.{◌≡◌, IfSome, is_some};
ghost use Rattle.heap_words.specs.ColourWords.{IsPermutation};
ghost use Rattle.heap_rule.specs.declared.view.Known.TheVariants.{Marked};
ghost use Rattle.heap_rule.specs.Beside.{IsKnown};
ghost use Rattle.heap_rule.specs.Standing.{IsInHeap};
ghost use Rattle.heap_rule.specs.Places.{IsOldAt};
ghost use Rattle.heap_rule.specs.Token.{IsIn};
ghost use Rattle.step_marks.specs.Marking.Marking.{Reason};
ghost use Rattle.step_marks.specs.Beside.Marking.{Reason as Beside, StillFound, weak_on};
ghost use Rattle.do_fields.specs.Darkening.Aware.{CountsDarkening, DarkensBeside, Learnt};
ghost use Rattle.gc_mark.specs.Decks.{IsPooled};
ghost use Rattle.gc_mark.specs.Shares.{Darkens, darkened};

use do_fields::darkening::{darken_beside, darkened_head};
use heap_rule::{Domain, Heap};
use heap_words::Colours;
use std::marker::Model;
use step_marks::marking::{darken_exchange, target_load};

/// A hint of a block of the pools that a domain has darkened: an address at which a grey block may begin.
/// It proves nothing: whether the block is still grey its head alone says.
///
/// Only a darkening makes a hint, and one alone. It can't be copied, so each hint that is noted or taken
/// is that of a block which some domain has darkened.
#[derive(Drop)]
pub struct Hint {
    address: u32,
}

impl Model for Hint {
    ghost use Rattle.std.specs.Prelude.{ℕ};
    ghost use Rattle.gc_mark.specs.Decks.{IsPooled};

    ghost Value = { ℕ };

    ghost view = { λ h. h.address };

    ghost invariant = { λ h. IsPooled h.address };
}

impl Hint {
    /// The address of the block.
    pub fn address(&self) -> u32
        ensures address { result ≡ self.now }
        ensures pooled { IsPooled result }
    {
        self.address
    }
}

/// Marks the block at `at`, for which there is a reason: a register refers to it, or the next field of
/// the block that is scanned, or the datum of a marked ephemeron whose full keys are all marked, or a
/// place of the domain's queue of finalisers keeps it alive. The domain is in a phase in which blocks
/// are marked, and knows the colours. Afterwards the block is marked, and the domain is done with the
/// reason (`darkened`). Answers the block's hint where this domain has marked it, and not another before.
/// Where it has, it owes a store of the changed word in Mark, in Rounds and in Queued. What it has marked
/// lies in a pool.
pub fn darken(heap: &Heap, dom: &mut Domain, at: u32, colours: Colours) -> Option<Hint>
    ghost reason: { Reason }
    requires here { IsIn dom.old heap.now }
    requires inside { IsInHeap heap.now.config at }
    requires meanings { IsPermutation colours }
    requires darkens { Darkens colours at reason dom.old.view }
    ensures here { IsIn dom.new heap.now }
    ensures darkened { dom.new.view ≡ darkened reason at (is_some result) dom.old.view }
    ensures hint { IfSome result (λ hint. (hint ≡ at) × IsOldAt heap.now.config at) }
{
    let _limits = heap.config();
    let word = target_load(heap, dom, at);
    let new = darkened_head(word, colours)?;
    if darken_exchange(heap, dom, at, word, new) == word {
        Some(Hint { address: at })
    } else {
        None
    }
}

// Marks the block of the pools at `at` as `darken_beside` does, and answers the block's hint where this
// domain has marked it, and not another before.
pub(crate) fn darken_running(
    heap: &Heap,
    dom: &mut Domain,
    at: u32,
    colours: Colours,
) -> Option<Hint>
    ghost reason: { Beside }
    requires here { IsIn dom.old heap.now }
    requires inside { IsInHeap heap.now.config at }
    requires meanings { IsPermutation colours }
    requires darkens { DarkensBeside heap.now.config colours at reason dom.old.view }
    ensures here { IsIn dom.new heap.now }
    ensures learnt { Learnt dom.old.view dom.new.view }
    ensures colours { dom.new.view.seen.share.colours ≡ dom.old.view.seen.share.colours }
    ensures armed { dom.new.view.seen.share.armed ≡ dom.old.view.seen.share.armed }
    ensures marked { IsKnown dom.new.view.seen.share.known (Marked at) }
    ensures owes { dom.new.view.seen.share.weak ≡ weak_on reason dom.old.view.seen.share.weak }
    ensures hint { IfSome result (λ hint. hint ≡ at) }
    ensures counts { CountsDarkening (is_some result) dom.old.view.seen.share.known dom.new.view.seen.share.known }
    ensures found { StillFound dom.old.view dom.new.view }
{
    let _limits = heap.config();
    if darken_beside(heap, dom, at, colours) {
        Some(Hint { address: at })
    } else {
        None
    }
}
