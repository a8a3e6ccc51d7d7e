//! The making of a young block: its label, its fields, and its head last.
ghost use Rattle.std.specs.Prelude.{◌≡◌, ◌+◌, ◌<◌, ◌≤◌, ◌^◌, ℕ, []};
ghost use Rattle.model_core.specs.declared.entry.Entry.{Entry};
ghost use Rattle.step_run.specs.Young.Inits.{fields_of, WordMay, WordTold, AllocEntry, AllocTold};
ghost use Rattle.heap_rule.specs.Places.{class_words};
ghost use Rattle.heap_rule.specs.Standing.{IsInHeap};
ghost use Rattle.heap_rule.specs.Token.{IsIn};

use heap_rule::{Change, Domain, Heap, Leaving, Own, Writing, make_changes, raw_store};
use heap_words::Value;
use heap_words::classes::heap_classes;
use std::marker::Brand;

/// The words that a block takes in a minor area: those of the least size class that has room for its
/// own, which are at most 1024.
pub fn words_of_class(words: usize) -> u32
    requires { words ≤ 1024 }
    ensures { result ≡ class_words words }
{
    let classes = heap_classes();
    let Some(class) = classes.class_of(words) else {
        unreachable!()
    };
    classes.words_of(class) as u32
}

/// A store of the next word behind the place of the head, of the block that the domain is making in its
/// own minor area: first its label, then its fields. The token's plain data stays as it is.
pub fn word_store(heap: &Heap, dom: &mut Domain, at: u32, new: u64)
    requires here { IsIn dom.old heap.now }
    requires inside { IsInHeap heap.now.config at }
    requires may { WordMay heap.now.config dom.old.view at [] }
    ensures here { IsIn dom.new heap.now }
    ensures told { WordTold new dom.old.view dom.new.view }
{
    let index = heap.index_of(at);
    raw_store::<Brand, Leaving>(heap, dom, index, new, &Leaving, &[]);
}

// The changes are made in the registers, and a block of so many class words and its label are
// counted.
#[derive(Clone, Copy)]
struct Counting {
    words: u32,
}

impl Writing for Counting {
    ghost use Rattle.step_run.specs.Young.Inits.{CanCount, CountsWords};

    ghost can = { λ s found changes own. CanCount s.words changes own };

    ghost writes = { λ s found changes own after. CountsWords s.words changes own after };

    fn write(&self, _found: u64, changes: &[Change], own: &mut Own) {
        let used = own.used + self.words;
        let serial = own.serial + 1;
        make_changes(own, Value::Nothing, changes);
        own.used = used;
        own.serial = serial;
    }
}

/// The store of the head of the block that the domain is making in its own minor area, at which the block
/// comes to live and the allocation's entry stands: its label and its fields are written, each of these
/// the integer 0. `at` is the address at which it begins, and `words` those of its size class. The
/// changes put the address into the register of the allocation. The domain has found as many pools free
/// as promotion may need, and it has found whether a cycle goes on beside: the head is a marked one there,
/// and an unmarked one else.
pub fn head_store(heap: &Heap, dom: &mut Domain, at: u32, words: u32, new: u64, changes: &[Change])
    ghost entry: { Entry }
    requires here { IsIn dom.old heap.now }
    requires inside { IsInHeap heap.now.config at }
    requires words { words ≡ class_words (fields_of entry + 2) }
    requires may { AllocEntry heap.now.config dom.old.view at new changes.now entry }
    ensures here { IsIn dom.new heap.now }
    ensures told { AllocTold heap.now.config entry changes.now dom.old.view dom.new.view }
{
    let _limits = heap.config();
    let index = heap.index_of(at);
    raw_store::<Brand, Counting>(heap, dom, index, new, &Counting { words }, changes);
}
