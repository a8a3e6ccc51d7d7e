//! The marking of a running domain.
ghost use Rattle.std.specs.Prelude.{◌≡◌, ◌≢◌, ◌+◌, ◌<◌, ◌≤◌, ℕ, true, cond, IfNone, IfSome};
ghost use Rattle.heap_words.specs.declared.colours.Colours.{Colours};
ghost use Rattle.heap_words.specs.ColourWords.{IsPermutation};
ghost use Rattle.heap_rule.specs.Token.{IsIn};
ghost use Rattle.step_marks.specs.Beside.Marking.{IsBeside};
ghost use Rattle.gc_mark.specs.Decks.{AllMissed, HasMissed};
ghost use Rattle.gc_mark.specs.Slices.{IsDeckOf, LearntBeside, Slices, Tries, Went};
ghost use Rattle.gc_mark.specs.Ends.{CountsSlice, EndsSlice, ScansUpTo};

use crate::darkening::Hint;
use crate::deck::Deck;
use crate::greys::scan_word;
use crate::looking::look;
use heap_rule::{Domain, Heap};
use heap_words::Colours;
use step_marks::marking::colours_now;

/// Why a slice has ended.
#[derive(Clone, Copy, Debug, PartialEq, Eq)]
pub enum Why {
    /// It has scanned as many blocks as it was to.
    Enough,
    /// No domain had a hint any more.
    NoneFound,
    /// At too many hints no grey block began.
    Stale,
}

/// How many blocks a slice has scanned, and why it has ended.
#[derive(Clone, Copy, Debug, PartialEq, Eq)]
pub struct Scanned {
    pub count: u32,
    pub why: Why,
}

// At how many hints, in a slice, no grey block may begin.
const MOST_STALE: u32 = 8192;

// How many hints were let go, and why the slice ends; `None` where a block was scanned.
#[derive(Clone, Copy)]
struct Next {
    let_go: u32,
    end: Option<Why>,
}

// Takes a hint of the first of some domains that has one.
fn steal_among<K: Deck>(deck: &mut K, first: u32, end: u32) -> Option<Hint>
    requires others { (d : ℕ) → first ≤ d → d < end → (d ≢ (K.counts deck.old).number) × (d < (K.counts deck.old).domains) }
    requires dry { (K.counts deck.old).is_dry ≡ true }
    ensures took { IfSome result (λ _. Tries 1 (K.counts deck.old) (K.counts deck.new)) }
    ensures none { IfNone result (Tries 0 (K.counts deck.old) (K.counts deck.new) × ((d : ℕ) → first ≤ d → d < end → HasMissed (K.counts deck.old) (K.counts deck.new) d)) }
    ensures dry { IfNone result ((K.counts deck.new).is_dry ≡ true) }
{
    for from in first..end {
        if let Some(hint) = deck.steal(from) {
            return Some(hint);
        }
    }
    None
}

// Takes a hint of the domain's own, or else of the next other domain that has one.
fn next_hint<K: Deck>(deck: &mut K, number: u32, domains: u32) -> Option<Hint>
    requires number { number ≡ (K.counts deck.old).number }
    requires domains { domains ≡ (K.counts deck.old).domains }
    requires inside { number < domains }
    ensures took { IfSome result (λ _. Tries 1 (K.counts deck.old) (K.counts deck.new)) }
    ensures none { IfNone result (Tries 0 (K.counts deck.old) (K.counts deck.new) × AllMissed (K.counts deck.old) (K.counts deck.new)) }
{
    if let Some(hint) = deck.own() {
        return Some(hint);
    }
    if let Some(hint) = steal_among(deck, number + 1, domains) {
        return Some(hint);
    }
    steal_among(deck, 0, number)
}

// Looks at the address of a hint, and scans the block that begins there if it is grey. Answers whether it has scanned
// one.
fn scan_hint<K: Deck>(
    heap: &Heap,
    dom: &mut Domain,
    hint: Hint,
    colours: Colours,
    deck: &mut K,
) -> bool
    ghost known: { Colours }
    requires names { known ≡ colours }
    requires here { IsIn dom.old heap.now }
    requires slices { Slices colours dom.old.view }
    requires meanings { IsPermutation colours }
    ensures here { IsIn dom.new heap.now }
    ensures went { Went (cond result 1 0) (cond result 0 1) 0 dom.old.view dom.new.view (K.counts deck.old) (K.counts deck.new) }
{
    let _limits = heap.config();
    let at = hint.address();
    let word = look(heap, dom, hint);
    scan_word(heap, dom, at, word, colours, deck)
}

// Takes hints until it has scanned a block, no domain has one, or so many were let go.
fn scan_next<K: Deck>(
    heap: &Heap,
    dom: &mut Domain,
    left: u32,
    colours: Colours,
    deck: &mut K,
) -> Next
    requires here { IsIn dom.old heap.now }
    requires slices { Slices colours dom.old.view }
    requires meanings { IsPermutation colours }
    requires decked { IsDeckOf heap.now.config dom.old.view (K.counts deck.old) }
    ensures here { IsIn dom.new heap.now }
    ensures scanned { IfNone result.end ((result.let_go < left) × Went 1 result.let_go (result.let_go + 1) dom.old.view dom.new.view (K.counts deck.old) (K.counts deck.new)) }
    ensures ended { IfSome result.end (λ why. EndsSlice why left result.let_go dom.old.view dom.new.view (K.counts deck.old) (K.counts deck.new)) }
{
    let domains = heap.config().domains;
    let number = dom.number();
    for let_go in 0..left {
        let Some(hint) = next_hint(deck, number, domains) else {
            return Next {
                let_go,
                end: Some(Why::NoneFound),
            };
        };
        if scan_hint(heap, dom, hint, colours, deck) {
            return Next { let_go, end: None };
        }
    }
    Next {
        let_go: left,
        end: Some(Why::Stale),
    }
}

/// A slice of the marking of a running domain, which knows that a cycle goes on. It takes hints, its own
/// first and then one of each other domain in turn, from the next one on, and scans each grey block that
/// begins at one: what its fields refer to in the pools is darkened, noted where this domain has
/// darkened it, and then the block's head says that it is scanned. A hint at which no grey block begins
/// is let go. A hint is made by a darkening alone, and the look at its address uses it up: so what is
/// noted are the blocks that were darkened, and each hint that is taken is looked at. It ends when it has scanned `most` blocks, when no domain has a hint any more, or at the
/// 8192nd hint that it lets go. What it knows of the colours and of blocks is all that has changed.
///
/// Blocks of which no hint tells stay grey until a walk finds them ("Retrofitting Parallelism onto
/// OCaml", section 4.3).
pub fn slice<K: Deck>(heap: &Heap, dom: &mut Domain, deck: &mut K, most: u32) -> Scanned
    requires here { IsIn dom.old heap.now }
    requires beside { IsBeside dom.old.view }
    requires decked { IsDeckOf heap.now.config dom.old.view (K.counts deck.old) }
    requires some { 1 ≤ most }
    ensures here { IsIn dom.new heap.now }
    ensures learnt { LearntBeside dom.old.view dom.new.view }
    ensures scans { ScansUpTo most result dom.old.view dom.new.view }
    ensures counts { CountsSlice result dom.old.view dom.new.view (K.counts deck.old) (K.counts deck.new) }
{
    let colours = colours_now(heap, dom);
    let mut left = MOST_STALE;
    for count in 0..most {
        let next = scan_next(heap, dom, left, colours, deck);
        if let Some(why) = next.end {
            return Scanned { count, why };
        }
        left -= next.let_go;
    }
    Scanned {
        count: most,
        why: Why::Enough,
    }
}
