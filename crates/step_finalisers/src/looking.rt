//! Looks at registrations in a collection.
ghost use Rattle.heap_rule.specs.Standing.{IsInHeap};
ghost use Rattle.heap_rule.specs.Token.{IsIn};
ghost use Rattle.step_finalisers.specs.Looking.{FinalLookMay, FinalLookTold, LastLookMay, LastLookTold};

use heap_rule::{
    Change, Domain, Heap, Own, Registered, RegisteredLast, Waiting, Writing, raw_load,
};
use std::marker::Brand;
use step_sweep::has_colour;

// A registration of `finalise` whose block isn't marked leaves its list for the end of the queue. The
// address is there for the pick alone.
#[derive(Clone, Copy)]
struct QueuesFinal {
    at: u32,
    i: u32,
    registered: Registered,
    marked: u8,
}

impl Writing for QueuesFinal {
    ghost use Rattle.step_finalisers.specs.Looking.{CanQueueFinal, QueuesFinal};

    ghost can = { λ s _ _ own. CanQueueFinal s.i s.registered own };

    ghost writes = { λ s found _ own after. QueuesFinal s.i s.registered s.marked found own after };

    fn write(&self, found: u64, _changes: &[Change], own: &mut Own) {
        if !has_colour(found, self.marked) {
            own.finalisers.finals.remove(self.i as usize);
            own.finalisers.queue.push(Waiting::Fin {
                address: self.registered.address,
                number: self.registered.number,
                register: self.registered.register,
            });
        }
    }
}

// And so does one of `finalise_last`.
#[derive(Clone, Copy)]
struct QueuesLast {
    at: u32,
    i: u32,
    registered: RegisteredLast,
    marked: u8,
}

impl Writing for QueuesLast {
    ghost use Rattle.step_finalisers.specs.Looking.{CanQueueLast, QueuesLast};

    ghost can = { λ s _ _ own. CanQueueLast s.i s.registered own };

    ghost writes = { λ s found _ own after. QueuesLast s.i s.registered s.marked found own after };

    fn write(&self, found: u64, _changes: &[Change], own: &mut Own) {
        if !has_colour(found, self.marked) {
            own.finalisers.lasts.remove(self.i as usize);
            own.finalisers.queue.push(Waiting::Last {
                number: self.registered.number,
            });
        }
    }
}

/// A load of the head of the block of the domain's `i`-th registration of `finalise`, in Decide, where
/// the domain has looked at all behind it. Where the head has the colour that means marked, which is
/// `marked`, the registration is kept. Else it is queued: the entry of the collector stands there.
/// `at` is the block's address. Answers the head's word.
pub fn final_look(
    heap: &Heap,
    dom: &mut Domain,
    at: u32,
    i: u32,
    registered: Registered,
    marked: u8,
) -> u64
    requires here { IsIn dom.old heap.now }
    requires inside { IsInHeap heap.now.config at }
    requires may { FinalLookMay dom.old.view at i marked registered }
    ensures here { IsIn dom.new heap.now }
    ensures told { FinalLookTold heap.now.config i marked registered dom.old.view result dom.new.view }
{
    let index = heap.index_of(at);
    let writing = QueuesFinal {
        at,
        i,
        registered,
        marked,
    };
    raw_load::<Brand, QueuesFinal>(heap, dom, index, &writing, &[])
}

/// A load of the head of the block of the domain's `i`-th registration of `finalise_last`, in Lasts,
/// likewise.
pub fn last_look(
    heap: &Heap,
    dom: &mut Domain,
    at: u32,
    i: u32,
    registered: RegisteredLast,
    marked: u8,
) -> u64
    requires here { IsIn dom.old heap.now }
    requires inside { IsInHeap heap.now.config at }
    requires may { LastLookMay dom.old.view at i marked registered }
    ensures here { IsIn dom.new heap.now }
    ensures told { LastLookTold heap.now.config i marked registered dom.old.view result dom.new.view }
{
    let index = heap.index_of(at);
    let writing = QueuesLast {
        at,
        i,
        registered,
        marked,
    };
    raw_load::<Brand, QueuesLast>(heap, dom, index, &writing, &[])
}
