//! The scan of a grey block beside running domains.
ghost use Rattle.std.specs.Prelude.{◌≡◌, ◌+◌, ◌*◌, ◌<◌, ◌≤◌, ℕ, MatchBool, cond};
ghost use Rattle.heap_words.specs.ColourWords.{IsPermutation};
ghost use Rattle.heap_rule.specs.declared.view.Known.TheVariants.{Shape};
ghost use Rattle.heap_rule.specs.Beside.{IsKnown, IsPaid};
ghost use Rattle.heap_rule.specs.Layout.{heap_words};
ghost use Rattle.heap_rule.specs.Token.{IsIn};
ghost use Rattle.step_marks.specs.Marking.Marking.{IsGrey};
ghost use Rattle.step_marks.specs.Beside.Marking.{Field, FoundSince, StillFound};
ghost use Rattle.gc_mark.specs.Slices.{IsSized, Scanning, Slices, Went};

use crate::darkening::darken_running;
use crate::deck::Deck;
use do_fields::darkening::scan_of;
use heap_rule::{Domain, Heap, Reading, read_as};
use heap_words::classes::POOL_WORDS;
use heap_words::{Colours, Value};
use step_marks::beside::{beside_read, beside_scanned_store};

// Darkens the block of the pools that a field of a grey block refers to, if it refers to one, and notes
// it where this domain has darkened it.
fn darken_field<K: Deck>(
    heap: &Heap,
    dom: &mut Domain,
    block: u32,
    field: u32,
    colours: Colours,
    deck: &mut K,
)
    ghost why: { Scanning }
    requires reason { why.reason ≡ Field block field }
    requires here { IsIn dom.old heap.now }
    requires slices { Slices colours dom.old.view }
    requires meanings { IsPermutation colours }
    requires shape { IsKnown dom.old.view.seen.share.known (Shape block why.head) }
    requires field { (fields : ℕ) × (field < fields) × IsSized why.head fields }
    requires inside { (1 ≤ block) × (block + field + 2 ≤ heap_words heap.now.config) }
    ensures here { IsIn dom.new heap.now }
    ensures went { Went 0 0 0 dom.old.view dom.new.view (K.counts deck.old) (K.counts deck.new) }
    ensures paid { IsPaid dom.new.view.seen.share.known block field }
    ensures found { StillFound dom.old.view dom.new.view }
{
    let limits = heap.config();
    let word = beside_read(heap, dom, block + 2 + field, block, field);
    let Value::Ref(address) = read_as(Reading::AsValue, word) else {
        return;
    };
    if address > limits.pools * POOL_WORDS {
        return;
    }
    if let Some(hint) = darken_running(heap, dom, address, colours) {
        deck.push(hint);
    }
}

// The same for all fields of the block.
fn darken_fields<K: Deck>(
    heap: &Heap,
    dom: &mut Domain,
    block: u32,
    fields: u32,
    colours: Colours,
    deck: &mut K,
)
    ghost head: { ℕ }
    requires here { IsIn dom.old heap.now }
    requires slices { Slices colours dom.old.view }
    requires meanings { IsPermutation colours }
    requires shape { IsKnown dom.old.view.seen.share.known (Shape block head) }
    requires sized { IsSized head fields }
    requires inside { (1 ≤ block) × (block ≤ heap.now.config.pools * 4096) }
    ensures here { IsIn dom.new heap.now }
    ensures went { Went 0 0 0 dom.old.view dom.new.view (K.counts deck.old) (K.counts deck.new) }
    ensures paid { (i : ℕ) → i < fields → IsPaid dom.new.view.seen.share.known block i }
    ensures found { StillFound dom.old.view dom.new.view }
{
    let _limits = heap.config();
    for field in 0..fields {
        darken_field(heap, dom, block, field, colours, deck);
    }
}

// Scans the block whose head the domain has found at an address, if it is grey. Answers whether it is.
pub(crate) fn scan_word<K: Deck>(
    heap: &Heap,
    dom: &mut Domain,
    at: u32,
    word: u64,
    colours: Colours,
    deck: &mut K,
) -> bool
    ghost head: { ℕ }
    requires here { IsIn dom.old heap.now }
    requires slices { Slices colours dom.old.view }
    requires meanings { IsPermutation colours }
    requires names { head ≡ word }
    requires shape { IsGrey colours word → FoundSince dom.old.view.seen.share.known at word × (1 ≤ at) × (at ≤ heap.now.config.pools * 4096) }
    ensures here { IsIn dom.new heap.now }
    ensures grey { MatchBool result (IsGrey colours word) (IsGrey colours word → ⊥) }
    ensures went { Went (cond result 1 0) 0 0 dom.old.view dom.new.view (K.counts deck.old) (K.counts deck.new) }
{
    let Some(block) = scan_of(word, colours) else {
        return false;
    };
    darken_fields(heap, dom, at, block.fields, colours, deck);
    beside_scanned_store(heap, dom, at, block.scanned);
    true
}
