//! The words behind the head of a new block.
ghost use Rattle.model_core.specs.Domains.{class_count};
ghost use Rattle.std.specs.Prelude.{◌≡◌, ◌+◌, ◌^◌, ◌<◌, ◌≤◌};
ghost use Rattle.heap_rule.specs.declared.phase.Kind.TheVariants.{Run};
ghost use Rattle.heap_rule.specs.declared.phase.Stage.TheVariants.{In};
ghost use Rattle.heap_rule.specs.Token.{IsIn, next_label};
ghost use Rattle.heap_words.specs.Classes.Table.{IsLeastFor};
ghost use Rattle.heap_words.specs.declared.classes.TheConstants.{SIZES};
ghost use Rattle.do_alloc.specs.Pools.Taken.{IsRoom, HasWords};

use heap_rule::{Domain, Heap};
use heap_words::classes::heap_classes;
use heap_words::pack_label;
use model_core::label::Label;
use step_pools::fill_store;

/// The size class of a block of so many words.
pub fn class_for(words: usize) -> u32
    requires { words ≤ 1024 }
    ensures class { result < class_count }
    ensures least { IsLeastFor SIZES words result }
{
    let Some(class) = heap_classes().class_of(words) else {
        unreachable!()
    };
    class as u32
}

/// Writes the words behind the head of a block at the place that is taken, which begins at `at`: the
/// label of the domain's next block, and then `count` times the same word. Answers the label. No
/// block lives there before its head is written too.
pub fn write_words(heap: &Heap, dom: &mut Domain, at: u32, word: u64, count: u32) -> Label
    requires here { IsIn dom.old heap.now }
    requires runs { dom.old.view.seen.stage ≡ In Run }
    requires room { IsRoom heap.now.config dom.old.view at (count + 2) }
    requires serial { dom.old.view.own.serial + 1 < 2 ^ 32 }
    ensures here { IsIn dom.new heap.now }
    ensures label { result ≡ next_label dom.old.view }
    ensures words { HasWords word count dom.old.view dom.new.view }
{
    let _limits = heap.config();
    let label = Label {
        domain: dom.number(),
        serial: dom.labels_made() + 1,
    };
    fill_store(heap, dom, at + 1, pack_label(label.domain, label.serial));
    for i in 0..count {
        fill_store(heap, dom, at + 2 + i, word);
    }
    label
}
