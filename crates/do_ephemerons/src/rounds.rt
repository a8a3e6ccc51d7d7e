//! The data of marked ephemerons are marked, where all their full keys are.
ghost use Rattle.std.specs.Prelude.{◌≡◌, ℕ, ◌+◌, ◌≤◌, Some, IsTrue, false, true};
ghost use Rattle.heap_words.specs.ColourWords.{IsPermutation};
ghost use Rattle.heap_rule.specs.declared.phase.Kind.TheVariants.{Rounds};
ghost use Rattle.heap_rule.specs.declared.phase.Stage.TheVariants.{In};
ghost use Rattle.heap_rule.specs.declared.view.Scan.TheVariants.{Idle, Keys};
ghost use Rattle.heap_rule.specs.Cycles.{seen_by};
ghost use Rattle.heap_rule.specs.Layout.{heap_words};
ghost use Rattle.heap_rule.specs.Standing.{IsInHeap};
ghost use Rattle.heap_rule.specs.Token.{IsIn};
ghost use Rattle.step_marks.specs.Marking.Looks.{with_share};
ghost use Rattle.step_ephemerons.specs.Looks.Rounding.{KeyMay};
ghost use Rattle.do_ephemerons.specs.Looking.{AllLooked, Darkening, LookedAtEphemerons, SawEach, Through, after_key, after_keys};

use crate::heads::{is_marked, marked_keys};
use gc_mark::{Hints, darken, scan_marked};
use heap_rule::{Domain, Heap, Reading, read_as};
use heap_words::{Colours, Value};
use step_ephemerons::looks::{datum_load, ephemeron_load, key_load, key_look};
use step_marks::marking::{changed_store, colours_now};

// How often an ephemeron is looked at again, on average and at most.
const LOOKS: usize = 8;

// Looks at the next key, which is at `at`. Answers whether it is empty or its block is marked.
fn key_is_marked(
    heap: &Heap,
    dom: &mut Domain,
    at: u32,
    colours: Colours,
    hints: &mut Hints,
) -> bool
    requires here { IsIn dom.old heap.now }
    requires darkening { Darkening colours dom.old.view }
    requires meanings { IsPermutation colours }
    requires inside { IsInHeap heap.now.config at }
    requires may { KeyMay dom.old.view at }
    ensures here { IsIn dom.new heap.now }
    ensures hints { hints.new ≡ hints.old }
    ensures looked { dom.new.view ≡ with_share dom.old.view (after_key result dom.old.view.seen.share) }
{
    let word = key_load(heap, dom, at);
    let Value::Ref(address) = read_as(Reading::AsValue, word) else {
        return true;
    };
    let head = key_look(heap, dom, address);
    let marked = is_marked(head, colours);
    if !marked {
        hints.wait_for(address);
    }
    marked
}

// Looks at the keys of a marked ephemeron in order, up to the first full one whose block isn't marked.
// Answers whether there is none.
fn keys_are_marked(
    heap: &Heap,
    dom: &mut Domain,
    at: u32,
    keys: u32,
    colours: Colours,
    hints: &mut Hints,
) -> bool
    requires here { IsIn dom.old heap.now }
    requires darkening { Darkening colours dom.old.view }
    requires meanings { IsPermutation colours }
    requires low { 1 ≤ at }
    requires high { at + keys + 2 ≤ heap_words heap.now.config }
    requires begins { dom.old.view.seen.share.scan ≡ Keys at 0 keys }
    ensures here { IsIn dom.new heap.now }
    ensures hints { hints.new ≡ hints.old }
    ensures looked { dom.new.view ≡ with_share dom.old.view (after_keys result at keys dom.old.view.seen.share) }
{
    let _limits = heap.config();
    for i in 0..keys {
        if !key_is_marked(heap, dom, at + 3 + i, colours, hints) {
            return false;
        }
    }
    true
}

// Marks the block that the datum of an ephemeron refers to, if it refers to one, and where this domain
// has marked it what it leads to. All full keys of the ephemeron are marked. Answers whether this domain
// has marked the block.
fn mark_datum(heap: &Heap, dom: &mut Domain, at: u32, colours: Colours, hints: &mut Hints) -> bool
    requires here { IsIn dom.old heap.now }
    requires darkening { Darkening colours dom.old.view }
    requires meanings { IsPermutation colours }
    requires low { 1 ≤ at }
    requires high { at + 2 ≤ heap_words heap.now.config }
    requires done { (count : ℕ) × (dom.old.view.seen.share.scan ≡ Keys at count count) }
    ensures here { IsIn dom.new heap.now }
    ensures hints { hints.new ≡ hints.old }
    ensures through { Through at result dom.old.view dom.new.view }
{
    let _limits = heap.config();
    let word = datum_load(heap, dom, at + 2);
    let Value::Ref(address) = read_as(Reading::AsValue, word) else {
        return false;
    };
    let won = darken(heap, dom, address, colours).is_some();
    if won {
        hints.wake(address);
        scan_marked(heap, dom, address, colours, hints);
    }
    won
}

// Looks at a listed ephemeron, and marks what its datum refers to where it is to be marked: the
// ephemeron is, and so are all its full keys. Answers whether this domain has marked a block.
fn look_at(heap: &Heap, dom: &mut Domain, at: u32, colours: Colours, hints: &mut Hints) -> bool
    requires here { IsIn dom.old heap.now }
    requires darkening { Darkening colours dom.old.view }
    requires meanings { IsPermutation colours }
    requires idle { dom.old.view.seen.share.scan ≡ Idle }
    requires inside { IsInHeap heap.now.config at }
    requires listed { IsTrue (seen_by dom.old.view.own.ephemerons.items at) }
    ensures here { IsIn dom.new heap.now }
    ensures hints { hints.new ≡ hints.old }
    ensures through { Through at result dom.old.view dom.new.view }
{
    let word = ephemeron_load(heap, dom, at);
    let Some(keys) = marked_keys(word, colours) else {
        hints.wait_for(at);
        return false;
    };
    if !keys_are_marked(heap, dom, at, keys, colours, hints) {
        return false;
    }
    mark_datum(heap, dom, at, colours, hints)
}

// Looks at each listed ephemeron once, and notes for which block each waits that isn't done. Answers
// whether this domain has marked a block.
fn look_through(heap: &Heap, dom: &mut Domain, colours: Colours, hints: &mut Hints) -> bool
    requires here { IsIn dom.old heap.now }
    requires darkening { Darkening colours dom.old.view }
    requires meanings { IsPermutation colours }
    requires idle { dom.old.view.seen.share.scan ≡ Idle }
    ensures here { IsIn dom.new heap.now }
    ensures hints { hints.new ≡ hints.old }
    ensures passed { SawEach result dom.old.view dom.new.view }
{
    let count = dom.ephemerons_len();
    hints.start_waiting(count);
    let mut darkened = false;
    for i in 0..count {
        hints.look_at(i);
        let at = dom.ephemeron_at(i);
        darkened |= look_at(heap, dom, at, colours, hints);
    }
    darkened
}

// Looks again at those that waited for a block which this domain has marked since, as long as there are
// any, and at most so many times as often as there are ephemerons.
fn look_again(heap: &Heap, dom: &mut Domain, colours: Colours, hints: &mut Hints)
    requires here { IsIn dom.old heap.now }
    requires darkening { Darkening colours dom.old.view }
    requires meanings { IsPermutation colours }
    requires idle { dom.old.view.seen.share.scan ≡ Idle }
    ensures here { IsIn dom.new heap.now }
    ensures hints { hints.new ≡ hints.old }
    ensures looked { LookedAtEphemerons dom.old.view dom.new.view }
    ensures owes { dom.old.view.seen.share.owes ≡ true → dom.new.view.seen.share.owes ≡ true }
{
    let count = dom.ephemerons_len();
    for _ in 0..count.saturating_mul(LOOKS) {
        let Some(i) = hints.next_woken() else {
            return;
        };
        if i < count {
            let at = dom.ephemeron_at(i);
            look_at(heap, dom, at, colours, hints);
        }
    }
}

/// A domain's share of a phase in which the data of ephemerons are marked: it looks at each listed
/// ephemeron, and where the ephemeron and all its full keys are marked, it marks what the datum refers
/// to. Where that marks a block it scans the block at once, and what it marks by that, wherever it lies.
/// Then it looks again at the ephemerons that waited for a block that it has marked, since the block may
/// be a key of one, or one itself. Where it has marked a block it stores so in the changed word.
/// Afterwards it has been at each listed ephemeron and still owes no store of the changed word, as is
/// asked of it where it arrives. What it knows of the colours and of blocks is all that has changed.
/// Which ephemerons wait for which blocks it keeps beside the hints; one that isn't looked at again for
/// want of a note costs a further phase.
///
/// The scan of a datum might be left to the next phase in which blocks are marked ("Retrofitting
/// Parallelism onto OCaml", section 3.2.3). As it is done here, a chain of ephemerons of one domain whose
/// data lead to the next key through fields is marked in one phase.
pub fn round(heap: &Heap, dom: &mut Domain, hints: &mut Hints)
    requires here { IsIn dom.old heap.now }
    requires stage { dom.old.view.seen.stage ≡ In Rounds }
    requires idle { dom.old.view.seen.share.scan ≡ Idle }
    requires told { dom.old.view.seen.share.owes ≡ false }
    ensures here { IsIn dom.new heap.now }
    ensures hints { hints.new ≡ hints.old }
    ensures looked { AllLooked dom.old.view dom.new.view }
{
    let colours = colours_now(heap, dom);
    if look_through(heap, dom, colours, hints) {
        look_again(heap, dom, colours, hints);
        changed_store(heap, dom);
    }
}
