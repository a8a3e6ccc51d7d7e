//! The filling of copies.
ghost use Rattle.std.specs.Prelude.{◌≡◌, ◌+◌, ◌<◌, ◌≤◌, length};
ghost use Rattle.heap_rule.specs.Token.{IsIn};
ghost use Rattle.gc_copy.specs.Filling.{FilledTo, AllFilled};
ghost use Rattle.gc_copy.specs.Working.{Works, Tied};

use crate::claiming::forwarded;
use crate::heads::words_of;
use heap_rule::{Copied, Domain, Heap, Reading, read_as};
use heap_words::pack_value;
use step_promote::{copy_end, copy_store, young_field_load, young_head_load};

// Fills the i-th copy, the first that the domain is to fill. What its values lead to is copied too.
fn fill(heap: &Heap, dom: &mut Domain, i: usize)
    requires here { IsIn dom.old heap.now }
    requires works { Works heap.now.config dom.old.view }
    requires tied { Tied i dom.old.view }
    requires some_left { i < length dom.old.view.own.pending.items }
    ensures here { IsIn dom.new heap.now }
    ensures filled { FilledTo heap.now.config (i + 1) dom.old.view dom.new.view }
{
    let _limits = heap.config();
    let Copied { copy, source } = dom.pending_at(i);
    let size = words_of(young_head_load(heap, dom, copy)) - 2;
    for place in 0..size {
        let word = young_field_load(heap, dom, source + 2 + place, source, place);
        let value = forwarded(heap, dom, read_as(Reading::AsValue, word));
        copy_store(heap, dom, copy + 2 + place, pack_value(value));
    }
    copy_end(heap, dom, copy);
}

// Fills all copies of the list, those too that come to it meanwhile.
pub(crate) fn fill_all(heap: &Heap, dom: &mut Domain)
    requires here { IsIn dom.old heap.now }
    requires works { Works heap.now.config dom.old.view }
    requires tied { Tied 0 dom.old.view }
    ensures here { IsIn dom.new heap.now }
    ensures filled { AllFilled heap.now.config dom.old.view dom.new.view }
{
    let mut i = 0;
    while i < dom.pending_len() {
        fill(heap, dom, i);
        i += 1;
    }
}
