//! The run of finalisers.
ghost use Rattle.std.specs.Prelude.{◌≡◌, ◌<◌, ◌≤◌, [], IfNone, IfSome, Some, length, slice_get};
ghost use Rattle.model_core.specs.declared.graph.Value.TheVariants.{Block};
ghost use Rattle.model_core.specs.declared.label.Label as labels;
ghost use Rattle.model_core.specs.Domains.{register as register_value};
ghost use Rattle.heap_rule.specs.Changes.{value_at};
ghost use Rattle.heap_rule.specs.Places.{Shows};
ghost use Rattle.heap_rule.specs.Rule.{state_of};
ghost use Rattle.heap_rule.specs.Running.{Continues};
ghost use Rattle.heap_rule.specs.Token.{IsIn};
ghost use Rattle.step_finalisers.specs.Running.{RunTold};
ghost use Rattle.do_finalisers.specs.Running.{RanFirst, reply_of};

use do_fields::fields::shown_register;
use heap_rule::{Domain, Heap, Waiting};
use model_core::label::Label;
use model_core::reply::Reply;
use step_finalisers::run_first;

/// A finaliser that has run.
#[derive(Clone, Copy, Debug, PartialEq, Eq)]
pub enum Ran {
    /// One of `finalise`: its number, and the block that its register holds now.
    Fin { number: u32, label: Label },
    /// One of `finalise_last`: its number.
    Last { number: u32 },
}

impl Ran {
    /// What the run answers: `fin` with the number and the block, or `last` with the number.
    pub fn reply(self) -> Reply
        ensures { result ≡ reply_of self }
    {
        match self {
            Ran::Fin { number, label } => Reply::Fin { number, label },
            Ran::Last { number } => Reply::Last { number },
        }
    }
}

// The label of the block that a register holds.
fn held_label(heap: &Heap, dom: &mut Domain, r: u8) -> Label
    requires here { IsIn dom.old heap.now }
    requires few { r < 16 }
    requires shows { Shows (value_at dom.old.view.own.registers r) (register_value (state_of heap.now.config dom.old.view.seen.front) dom.old.view.own.number r) }
    requires block { (l : labels.Label) × (register_value (state_of heap.now.config dom.old.view.seen.front) dom.old.view.own.number r ≡ Block l) }
    ensures here { IsIn dom.new heap.now }
    ensures same { dom.new.view ≡ dom.old.view }
    ensures label { register_value (state_of heap.now.config dom.old.view.seen.front) dom.old.view.own.number r ≡ Block result }
{
    let Reply::Block(label) = shown_register(heap, dom, r) else {
        unreachable!()
    };
    label
}

// The first finaliser of the queue, which runs and leaves the queue.
fn take_first(heap: &Heap, dom: &mut Domain) -> Waiting
    requires continues { Continues heap.now dom.old }
    requires some { 1 ≤ length dom.old.view.own.finalisers.queue.items }
    ensures here { IsIn dom.new heap.now }
    ensures first { slice_get dom.old.view.own.finalisers.queue.items 0 ≡ Some result }
    ensures told { RunTold heap.now.config result dom.old.view dom.new.view }
{
    let first = dom.queue_at(0);
    run_first(heap, dom, first);
    first
}

/// Runs the finaliser that has waited longest in the domain's queue, if one waits. Its entry stands
/// in the history, and it leaves the queue, so it is called once. One of `finalise` finds its block in
/// the register that was registered with it; one of `finalise_last` finds none (OCaml manual, module
/// `Gc`). `None` is answered exactly where none waits, and then nothing changes.
///
/// The domain runs, and its trace hasn't ended.
#[inline(always)]
pub fn run_next(heap: &Heap, dom: &mut Domain) -> Option<Ran>
    requires continues { Continues heap.now dom.old }
    ensures continues { Continues heap.now dom.new }
    ensures empty { IfNone result (dom.old.view.own.finalisers.queue.items ≡ []) }
    ensures same { IfNone result (dom.new.view ≡ dom.old.view) }
    ensures ran { IfSome result (λ ran. RanFirst heap.now.config ran dom.old.view dom.new.view) }
{
    let _limits = heap.config();
    if dom.queued() == 0 {
        return None;
    }
    match take_first(heap, dom) {
        Waiting::Fin {
            number,
            register,
            ..
        } => {
            let label = held_label(heap, dom, register);
            Some(Ran::Fin { number, label })
        }
        Waiting::Last { number } => Some(Ran::Last { number }),
    }
}
