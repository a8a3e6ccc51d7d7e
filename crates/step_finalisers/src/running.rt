//! The run of a finaliser.
ghost use Rattle.heap_rule.specs.Token.{IsIn};
ghost use Rattle.step_finalisers.specs.Running.{RunMay, RunTold};

use heap_rule::{Change, Domain, Heap, Own, WANT, Waiting, Writing, raw_load};
use heap_words::Value;
use std::marker::Brand;

// The first finaliser leaves the queue, and its register holds its block. It is there for the pick.
#[derive(Clone, Copy)]
struct Running {
    first: Waiting,
}

impl Writing for Running {
    ghost use Rattle.step_finalisers.specs.Running.{CanRun, Runs};

    ghost can = { λ s _ _ own. CanRun s.first own };

    ghost writes = { λ s _ _ own after. Runs s.first own after };

    fn write(&self, _found: u64, _changes: &[Change], own: &mut Own) {
        own.finalisers.queue.remove(0);
        if let Waiting::Fin {
            address,
            register,
            ..
        } = self.first
        {
            own.registers[register as usize] = Value::Ref(address);
        }
    }
}

/// A load of the want word, at which a running domain runs the first finaliser of its queue, which is
/// `first`: it leaves the queue, and the register of one of `finalise` holds its block.
pub fn run_first(heap: &Heap, dom: &mut Domain, first: Waiting)
    requires here { IsIn dom.old heap.now }
    requires may { RunMay heap.now.config dom.old.view first }
    ensures here { IsIn dom.new heap.now }
    ensures told { RunTold heap.now.config first dom.old.view dom.new.view }
{
    let writing = Running { first };
    raw_load::<Brand, Running>(heap, dom, WANT, &writing, &[]);
}
