//! The claim of a young block.
ghost use Rattle.std.specs.Prelude.{◌≡◌, ◌*◌, ◌<◌, ℕ, Some};
ghost use Rattle.model_core.specs.Domains.{class_count};
ghost use Rattle.heap_words.specs.declared.colours.Colours.{Colours};
ghost use Rattle.heap_words.specs.Values.{IsPackable};
ghost use Rattle.heap_rule.specs.Pools.{prepared_at};
ghost use Rattle.heap_rule.specs.Standing.{IsInHeap};
ghost use Rattle.heap_rule.specs.Token.{IsIn};
ghost use Rattle.step_pools.specs.Takes.{HasYoung};
ghost use Rattle.step_promote.specs.Promotion.{HeadMay};
ghost use Rattle.gc_copy.specs.Working.{Works, IsMetWith, Claimed, Prepared, Written, Forwarded, StandsFor};

use crate::heads::{copy_of, words_of};
use crate::places::{class_for, spot_in};
use do_alloc::pools::take_for_copy;
use heap_rule::{Domain, Heap};
use heap_words::classes::POOL_WORDS;
use heap_words::{Head, Value, pack_head};
use step_marks::marking::{armed_now, colours_now};
use step_promote::{
    claim_exchange, prepare_head, prepare_label, prepare_store, young_head_load, young_label_load,
};

// A head that isn't Free.
const TAKEN: u64 = 1;

// The place that is prepared for a class, or else a new one. Answers its address.
fn prepare(heap: &Heap, dom: &mut Domain, class: u32) -> u32
    requires here { IsIn dom.old heap.now }
    requires works { Works heap.now.config dom.old.view }
    requires class { class < class_count }
    requires young { HasYoung heap.now.config dom.old.view }
    ensures here { IsIn dom.new heap.now }
    ensures prepared { Prepared heap.now.config class dom.old.view dom.new.view result }
{
    let _limits = heap.config();
    if let Some(at) = dom.prepared(class) {
        return at;
    }
    let at = take_for_copy(heap, dom, class);
    let spot = spot_in(at, class);
    prepare_store(heap, dom, at, TAKEN, spot.pool, class, spot.slot);
    at
}

// Writes the young block's label, and its head `word`, to the prepared place `copy`.
fn write_copy(heap: &Heap, dom: &mut Domain, young: u32, word: u64, class: u32, copy: u32)
    requires here { IsIn dom.old heap.now }
    requires works { Works heap.now.config dom.old.view }
    requires met { IsMetWith dom.old.view young word }
    requires class { class < class_count }
    requires prepared { prepared_at dom.old.view.own.prepared class ≡ Some copy }
    ensures here { IsIn dom.new heap.now }
    ensures written { Written young word copy dom.old.view dom.new.view }
{
    let _limits = heap.config();
    let label = young_label_load(heap, dom, young + 1, young);
    prepare_label(heap, dom, copy + 1, label, class);
    prepare_head(heap, dom, copy, word);
}

// Claims a young block whose head was found to be `word`, which doesn't forward.
fn claim_as(heap: &Heap, dom: &mut Domain, young: u32, word: u64) -> u32
    requires here { IsIn dom.old heap.now }
    requires works { Works heap.now.config dom.old.view }
    requires met { IsMetWith dom.old.view young word }
    requires young { heap.now.config.pools * 4096 < young }
    ensures here { IsIn dom.new heap.now }
    ensures claimed { Claimed heap.now.config young dom.old.view dom.new.view result }
{
    let _limits = heap.config();
    let class = class_for(words_of(word));
    let copy = prepare(heap, dom, class);
    write_copy(heap, dom, young, word, class, copy);
    let new = pack_head(Head::Forward(copy));
    let (found, won) = claim_exchange(heap, dom, young, word, new, class, copy);
    if won {
        return copy;
    }
    let Some(other) = copy_of(found) else {
        unreachable!()
    };
    other
}

// Claims a young block, whose domain knows the colours. Whether a cycle goes on beside running domains,
// where the block has the colour of a marked one, is loaded first.
pub(crate) fn claim_met(heap: &Heap, dom: &mut Domain, young: u32) -> u32
    requires here { IsIn dom.old heap.now }
    requires works { Works heap.now.config dom.old.view }
    requires inside { IsInHeap heap.now.config young }
    requires met { HeadMay dom.old.view young }
    requires young { heap.now.config.pools * 4096 < young }
    requires colours { (c : Colours) × (dom.old.view.seen.share.colours ≡ Some c) }
    ensures here { IsIn dom.new heap.now }
    ensures claimed { Claimed heap.now.config young dom.old.view dom.new.view result }
{
    let _limits = heap.config();
    let _armed = armed_now(heap, dom);
    let word = young_head_load(heap, dom, young);
    if let Some(copy) = copy_of(word) {
        return copy;
    }
    claim_as(heap, dom, young, word)
}

/// Claims a young block that was met, or to which a register or a list of finalisers refers, in a phase
/// in which domains copy. Answers the address of the block's copy: that of another domain's where
/// another has claimed the block. What the domain prepared for it is then kept for its next claim of the size class. The
/// block's head forwards to this address, and every domain that claims the block gets the same one.
///
/// It makes no copy but the one that it answers. That stands in the domain's list of copies, behind all
/// others, and has none of its values yet.
pub fn claim(heap: &Heap, dom: &mut Domain, young: u32) -> u32
    requires here { IsIn dom.old heap.now }
    requires works { Works heap.now.config dom.old.view }
    requires inside { IsInHeap heap.now.config young }
    requires met { HeadMay dom.old.view young }
    requires young { heap.now.config.pools * 4096 < young }
    ensures here { IsIn dom.new heap.now }
    ensures claimed { Claimed heap.now.config young dom.old.view dom.new.view result }
{
    let _colours = colours_now(heap, dom);
    claim_met(heap, dom, young)
}

// What a value of a root or of a copied block becomes: one that stands for the same, and is no
// address of a minor area.
pub(crate) fn forwarded(heap: &Heap, dom: &mut Domain, value: Value) -> Value
    requires here { IsIn dom.old heap.now }
    requires works { Works heap.now.config dom.old.view }
    requires packable { IsPackable value }
    requires stands { StandsFor dom.old.view value }
    ensures here { IsIn dom.new heap.now }
    ensures forwarded { Forwarded heap.now.config value dom.old.view dom.new.view result }
{
    let pools = heap.config().pools;
    match value {
        Value::Ref(address) if address > pools * POOL_WORDS => {
            Value::Ref(claim(heap, dom, address))
        }
        _ => value,
    }
}
