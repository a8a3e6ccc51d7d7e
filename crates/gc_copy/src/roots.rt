//! The roots of a domain: its registers, and the fields that it remembers.
ghost use Rattle.std.specs.Prelude.{◌≡◌, ◌<◌, List, ℕ, ◌∷◌};
ghost use Rattle.heap_rule.specs.Running.{RemembersAll};
ghost use Rattle.heap_rule.specs.Standing.{IsInHeap};
ghost use Rattle.heap_rule.specs.Token.{IsIn};
ghost use Rattle.gc_copy.specs.Roots.{Moved, AllMoved, Rewritten, AllRewritten};
ghost use Rattle.gc_copy.specs.Working.{Works, Tied};

use crate::claiming::{claim, forwarded};
use heap_rule::{Domain, Heap, Reading, read_as};
use heap_words::classes::POOL_WORDS;
use heap_words::{Value, pack_value};
use step_promote::{register_move, remembered_load, remembered_store};

// A register that holds the address of a young block gets that of its copy.
fn move_register(heap: &Heap, dom: &mut Domain, register: u8)
    requires here { IsIn dom.old heap.now }
    requires works { Works heap.now.config dom.old.view }
    requires tied { Tied 0 dom.old.view }
    requires register { register < 16 }
    ensures here { IsIn dom.new heap.now }
    ensures moved { Moved heap.now.config register dom.old.view dom.new.view }
{
    let pools = heap.config().pools;
    if let Value::Ref(address) = dom.register(register) {
        if address > pools * POOL_WORDS {
            let copy = claim(heap, dom, address);
            register_move(heap, dom, address, register, copy);
        }
    }
}

// All registers.
pub(crate) fn move_registers(heap: &Heap, dom: &mut Domain)
    requires here { IsIn dom.old heap.now }
    requires works { Works heap.now.config dom.old.view }
    requires tied { Tied 0 dom.old.view }
    ensures here { IsIn dom.new heap.now }
    ensures moved { AllMoved heap.now.config dom.old.view dom.new.view }
{
    for register in 0..16 {
        move_register(heap, dom, register);
    }
}

// The first field that is to be looked through, which is at `at`, gets what its value has become.
fn rewrite_field(heap: &Heap, dom: &mut Domain, at: u32)
    requires here { IsIn dom.old heap.now }
    requires works { Works heap.now.config dom.old.view }
    requires tied { Tied 0 dom.old.view }
    requires inside { IsInHeap heap.now.config at }
    requires first { (rest : List ℕ) × (dom.old.view.seen.remembered ≡ at ∷ rest) }
    ensures here { IsIn dom.new heap.now }
    ensures rewritten { Rewritten heap.now.config dom.old.view dom.new.view }
{
    let _limits = heap.config();
    let word = remembered_load(heap, dom, at);
    let value = forwarded(heap, dom, read_as(Reading::AsValue, word));
    remembered_store(heap, dom, at, pack_value(value));
}

// All remembered fields.
pub(crate) fn rewrite_fields(heap: &Heap, dom: &mut Domain)
    requires here { IsIn dom.old heap.now }
    requires works { Works heap.now.config dom.old.view }
    requires tied { Tied 0 dom.old.view }
    requires remembers { RemembersAll dom.old.view }
    ensures here { IsIn dom.new heap.now }
    ensures rewritten { AllRewritten heap.now.config dom.old.view dom.new.view }
{
    let _limits = heap.config();
    for i in 0..dom.remembered_len() {
        let at = dom.remembered_at(i);
        rewrite_field(heap, dom, at);
    }
}
