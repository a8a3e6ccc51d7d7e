//! The deletion barrier.
ghost use Rattle.std.specs.Prelude.{◌≡◌, ℕ};
ghost use Rattle.heap_rule.specs.Beside.{Barrier};
ghost use Rattle.heap_rule.specs.Token.{IsIn};
ghost use Rattle.heap_rule.specs.declared.phase.Kind.TheVariants.{Run};
ghost use Rattle.heap_rule.specs.declared.phase.Stage.TheVariants.{In};
ghost use Rattle.step_marks.specs.Beside.Marking.{Field};
ghost use Rattle.do_fields.specs.Darkening.Aware.{Learnt, MayOverwrite, Overwriting};

use crate::darkening::darkening::darken_now;
use heap_rule::{Domain, Heap, Reading, read_as};
use heap_words::Value;
use heap_words::classes::POOL_WORDS;
use step_marks::beside::beside_read;
use step_marks::marking::armed_now;

// The same, with the reason why the block is darkened to which the field refers.
fn darken_overwritten(heap: &Heap, dom: &mut Domain, block: u32, field: u32)
    ghost why: { Overwriting }
    requires reason { why.reason ≡ Field block field }
    requires here { IsIn dom.old heap.now }
    requires runs { dom.old.view.seen.stage ≡ In Run }
    requires field { MayOverwrite heap.now.config dom.old.view block why.register field }
    ensures here { IsIn dom.new heap.now }
    ensures learnt { Learnt dom.old.view dom.new.view }
    ensures owes { dom.new.view.seen.share.weak ≡ dom.old.view.seen.share.weak }
    ensures barrier { Barrier dom.new.view.seen.share block field }
{
    let limits = heap.config();
    if !armed_now(heap, dom) {
        return;
    }
    let word = beside_read(heap, dom, block + 2 + field, block, field);
    match read_as(Reading::AsValue, word) {
        Value::Ref(address) if address <= limits.pools * POOL_WORDS => {
            darken_now(heap, dom, address);
        }
        _ => {}
    }
}

/// Does what a store asks before it overwrites a field of the block at `block` that a register holds:
/// where a cycle goes on beside running domains, the block of the pools to which the field refers is
/// darkened. So nothing that was reachable when the roots had been darkened is lost to the marking.
pub fn overwrite_barrier(heap: &Heap, dom: &mut Domain, block: u32, field: u32)
    ghost register: { ℕ }
    requires here { IsIn dom.old heap.now }
    requires runs { dom.old.view.seen.stage ≡ In Run }
    requires field { MayOverwrite heap.now.config dom.old.view block register field }
    ensures here { IsIn dom.new heap.now }
    ensures learnt { Learnt dom.old.view dom.new.view }
    ensures owes { dom.new.view.seen.share.weak ≡ dom.old.view.seen.share.weak }
    ensures barrier { Barrier dom.new.view.seen.share block field }
{
    darken_overwritten(heap, dom, block, field);
}
