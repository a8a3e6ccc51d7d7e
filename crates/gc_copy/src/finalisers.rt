//! The lists of finalisers of a domain.
ghost use Rattle.std.specs.Prelude.{◌≡◌, ◌<◌, length, Some};
ghost use Rattle.heap_rule.specs.declared.view.Held.TheVariants.{Final, Last, Queue};
ghost use Rattle.heap_rule.specs.Finalisers.{held_at};
ghost use Rattle.heap_rule.specs.Token.{IsIn};
ghost use Rattle.gc_copy.specs.Held.{HeldMoved, IsPlaceOf, AllHeldMoved};
ghost use Rattle.gc_copy.specs.Working.{Works, Tied};

use crate::claiming::claim_met;
use heap_rule::{Domain, Heap, Held, Waiting};
use heap_words::classes::POOL_WORDS;
use step_marks::marking::colours_now;
use step_promote::held_move;

// A place of the lists that has the address of a young block gets that of its copy.
fn move_held(heap: &Heap, dom: &mut Domain, held: Held, address: u32)
    requires here { IsIn dom.old heap.now }
    requires works { Works heap.now.config dom.old.view }
    requires tied { Tied 0 dom.old.view }
    requires held { held_at dom.old.view.own.finalisers held ≡ Some address }
    ensures here { IsIn dom.new heap.now }
    ensures moved { HeldMoved heap.now.config (λ h. h ≡ held) dom.old.view dom.new.view }
{
    let pools = heap.config().pools;
    if address > pools * POOL_WORDS {
        let _colours = colours_now(heap, dom);
        let copy = claim_met(heap, dom, address);
        held_move(heap, dom, address, held, copy);
    }
}

// All registrations of `finalise`.
fn move_finals(heap: &Heap, dom: &mut Domain)
    requires here { IsIn dom.old heap.now }
    requires works { Works heap.now.config dom.old.view }
    requires tied { Tied 0 dom.old.view }
    ensures here { IsIn dom.new heap.now }
    ensures moved { HeldMoved heap.now.config (IsPlaceOf Final) dom.old.view dom.new.view }
{
    let _most = heap.config().finals;
    let _room = dom.finals_room();
    let finals = dom.finals_len() as u32;
    for i in 0..finals {
        let registered = dom.final_at(i as usize);
        move_held(heap, dom, Held::Final(i), registered.address);
    }
}

// All registrations of `finalise_last`.
fn move_lasts(heap: &Heap, dom: &mut Domain)
    requires here { IsIn dom.old heap.now }
    requires works { Works heap.now.config dom.old.view }
    requires tied { Tied 0 dom.old.view }
    ensures here { IsIn dom.new heap.now }
    ensures moved { HeldMoved heap.now.config (IsPlaceOf Last) dom.old.view dom.new.view }
{
    let _most = heap.config().finals;
    let _room = dom.finals_room();
    let lasts = dom.lasts_len() as u32;
    for i in 0..lasts {
        let registered = dom.last_at(i as usize);
        move_held(heap, dom, Held::Last(i), registered.address);
    }
}

// The `i`-th finaliser of the queue, if it keeps a block alive.
fn move_waiting(heap: &Heap, dom: &mut Domain, i: u32)
    requires here { IsIn dom.old heap.now }
    requires works { Works heap.now.config dom.old.view }
    requires tied { Tied 0 dom.old.view }
    requires waits { i < length dom.old.view.own.finalisers.queue.items }
    ensures here { IsIn dom.new heap.now }
    ensures moved { HeldMoved heap.now.config (λ h. h ≡ Queue i) dom.old.view dom.new.view }
{
    if let Waiting::Fin { address, .. } = dom.queue_at(i as usize) {
        move_held(heap, dom, Held::Queue(i), address);
    }
}

// All finalisers of the queue.
fn move_queue(heap: &Heap, dom: &mut Domain)
    requires here { IsIn dom.old heap.now }
    requires works { Works heap.now.config dom.old.view }
    requires tied { Tied 0 dom.old.view }
    ensures here { IsIn dom.new heap.now }
    ensures moved { HeldMoved heap.now.config (IsPlaceOf Queue) dom.old.view dom.new.view }
{
    let _most = heap.config().finals;
    let _room = dom.finals_room();
    let waiting = dom.queued() as u32;
    for i in 0..waiting {
        move_waiting(heap, dom, i);
    }
}

// All lists.
pub(crate) fn move_finalisers(heap: &Heap, dom: &mut Domain)
    requires here { IsIn dom.old heap.now }
    requires works { Works heap.now.config dom.old.view }
    requires tied { Tied 0 dom.old.view }
    ensures here { IsIn dom.new heap.now }
    ensures moved { AllHeldMoved heap.now.config dom.old.view dom.new.view }
{
    move_finals(heap, dom);
    move_lasts(heap, dom);
    move_queue(heap, dom);
}
