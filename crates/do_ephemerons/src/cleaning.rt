//! The keys of marked ephemerons are emptied, where their blocks aren't marked.
ghost use Rattle.std.specs.Prelude.{◌≡◌, ◌+◌, ◌≤◌, IsTrue, None, Some};
ghost use Rattle.heap_words.specs.ColourWords.{IsPermutation};
ghost use Rattle.heap_rule.specs.declared.phase.Kind.TheVariants.{Clean};
ghost use Rattle.heap_rule.specs.declared.phase.Stage.TheVariants.{In};
ghost use Rattle.heap_rule.specs.declared.view.Scan.TheVariants.{Idle};
ghost use Rattle.heap_rule.specs.Cycles.{seen_by};
ghost use Rattle.heap_rule.specs.Layout.{heap_words};
ghost use Rattle.heap_rule.specs.Standing.{IsInHeap};
ghost use Rattle.heap_rule.specs.Token.{IsIn};
ghost use Rattle.step_ephemerons.specs.Looks.Emptying.{CleanKeyMay, cleaning_from};
ghost use Rattle.do_ephemerons.specs.Emptied.{AllCleaned, Cleaned, KeyCleaned, KeysCleaned, StaysLegal};

use crate::heads::{is_marked, marked_keys};
use heap_rule::{Domain, Heap, Reading, read_as};
use heap_words::{Colours, Value};
use step_ephemerons::looks::{
    clean_end, clean_key_load, clean_key_look, clean_label_load, clean_load,
};
use step_ephemerons::wipes::{wipe_data, wipe_key};
use step_marks::marking::colours_now;

// Looks at the next key, which is at `at`, and empties it if it is full and its block isn't marked.
// Answers whether it has emptied the key.
fn clean_key(heap: &Heap, dom: &mut Domain, at: u32, colours: Colours) -> bool
    requires here { IsIn dom.old heap.now }
    requires known { dom.old.view.seen.share.colours ≡ Some colours }
    requires meanings { IsPermutation colours }
    requires inside { IsInHeap heap.now.config at }
    requires may { CleanKeyMay dom.old.view at }
    ensures here { IsIn dom.new heap.now }
    ensures cleaned { KeyCleaned result dom.old.view dom.new.view }
{
    let word = clean_key_load(heap, dom, at);
    let Value::Ref(address) = read_as(Reading::AsValue, word) else {
        return false;
    };
    let head = clean_key_look(heap, dom, address);
    if is_marked(head, colours) {
        return false;
    }
    wipe_key(heap, dom, at);
    true
}

// The same for all keys of a marked ephemeron, in order. Answers whether it has emptied one.
fn clean_keys(heap: &Heap, dom: &mut Domain, at: u32, keys: u32, colours: Colours) -> bool
    requires here { IsIn dom.old heap.now }
    requires known { dom.old.view.seen.share.colours ≡ Some colours }
    requires meanings { IsPermutation colours }
    requires low { 1 ≤ at }
    requires high { at + keys + 2 ≤ heap_words heap.now.config }
    requires begins { dom.old.view.seen.share.cleaning ≡ Some (cleaning_from at keys) }
    ensures here { IsIn dom.new heap.now }
    ensures cleaned { KeysCleaned at keys keys result dom.old.view dom.new.view }
{
    let _limits = heap.config();
    let mut emptied = false;
    for i in 0..keys {
        emptied |= clean_key(heap, dom, at + 3 + i, colours);
    }
    emptied
}

// Looks at a listed ephemeron. Where it is marked its keys that aren't are emptied, and where there is
// one its datum too, once its label is loaded.
fn clean_ephemeron(heap: &Heap, dom: &mut Domain, at: u32, colours: Colours)
    requires here { IsIn dom.old heap.now }
    requires stage { dom.old.view.seen.stage ≡ In Clean }
    requires known { dom.old.view.seen.share.colours ≡ Some colours }
    requires meanings { IsPermutation colours }
    requires idle { dom.old.view.seen.share.scan ≡ Idle }
    requires none { dom.old.view.seen.share.cleaning ≡ None }
    requires inside { IsInHeap heap.now.config at }
    requires listed { IsTrue (seen_by dom.old.view.own.ephemerons.items at) }
    ensures here { IsIn dom.new heap.now }
    ensures cleaned { Cleaned at dom.old.view dom.new.view }
    ensures legal { StaysLegal heap.now.config dom.old.view dom.new.view }
{
    let _limits = heap.config();
    let word = clean_load(heap, dom, at);
    let Some(keys) = marked_keys(word, colours) else {
        return;
    };
    if clean_keys(heap, dom, at, keys, colours) {
        clean_label_load(heap, dom, at + 1);
        wipe_data(heap, dom, at + 2);
    } else {
        clean_end(heap, dom, at + 2);
    }
}

/// A domain's share of the phase in which ephemerons lose what wasn't marked: it looks at each listed
/// ephemeron once, and where the ephemeron is marked it empties each full key whose block isn't. Where
/// it has emptied one, the datum is emptied too, and the Wipe of these keys stands in the history there:
/// one entry for all of them. Afterwards the domain has been at each listed ephemeron and empties keys
/// of none, as is asked of it where it arrives. What it knows of the history, of the colours and of
/// places is all that has changed, and the history has grown by no entry of its own.
///
/// An ephemeron whose key is dead loses its datum (the OCaml manual, module Ephemeron of the standard
/// library).
pub fn clean(heap: &Heap, dom: &mut Domain)
    requires here { IsIn dom.old heap.now }
    requires stage { dom.old.view.seen.stage ≡ In Clean }
    requires idle { dom.old.view.seen.share.scan ≡ Idle }
    requires none { dom.old.view.seen.share.cleaning ≡ None }
    ensures here { IsIn dom.new heap.now }
    ensures cleaned { AllCleaned dom.old.view dom.new.view }
    ensures legal { StaysLegal heap.now.config dom.old.view dom.new.view }
{
    let colours = colours_now(heap, dom);
    for i in 0..dom.ephemerons_len() {
        let at = dom.ephemeron_at(i);
        clean_ephemeron(heap, dom, at, colours);
    }
}
