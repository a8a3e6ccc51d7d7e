//! The flags of sections: 0 before a section's spawn, 1 from then on, 2 from its end on.
ghost use Rattle.std.specs.Prelude.{◌≡◌, ◌<◌, ◌≤◌, cond, pos};
ghost use Rattle.model_core.specs.declared.command.Command.TheVariants.{Spawn};
ghost use Rattle.heap_rule.specs.Running.{Runs, ChangesRegisters};
ghost use Rattle.heap_rule.specs.Token.{Holds};
ghost use Rattle.model_traces.specs.Spawns.Expansion.{finish_commands, is_int};
ghost use Rattle.do_spawn.specs.Expanding.{ChangesWords, LooksAt, Expands, MakesAll, PassesArgument, ShowsAt};

use do_fields::fields::{load, put_int, store};
use heap_rule::{Domain, Heap};
use heap_words::Value;
use model_core::reply::Reply;

/// The register that holds the hidden block.
pub(crate) const HIDDEN: u8 = 15;
/// The register that the expansions use besides.
pub(crate) const SCRATCH: u8 = 14;
// The first field with an argument.
const ARGUMENTS: u16 = 8;

// Whether a reply is the integer that a section's start waits for, or its end.
fn is_awaited(reply: Reply, ends: bool) -> bool
    ensures { result ≡ is_int (cond ends (pos 2) (pos 1)) reply }
{
    match reply {
        Reply::Int(n) => { if ends { n == 2 } else { n == 1 } }
        _ => false,
    }
}

// One load of a section's flag: whether it is 2, for an end, or 1.
fn flag_is(heap: &Heap, dom: &mut Domain, section: u16, ends: bool) -> bool
    requires runs { Runs heap.now dom.old }
    ensures looks { LooksAt heap.now dom.old dom.new section (cond ends (pos 2) (pos 1)) result }
    ensures rest { ChangesRegisters dom.old dom.new }
{
    is_awaited(load(heap, dom, SCRATCH, HIDDEN, section), ends)
}

/// One look at the flag of the domain's own section: whether a spawn has begun it.
pub fn begun(heap: &Heap, dom: &mut Domain) -> bool
    requires runs { Runs heap.now dom.old }
    ensures looks { LooksAt heap.now dom.old dom.new dom.old.view.own.number (pos 1) result }
    ensures rest { ChangesRegisters dom.old dom.new }
{
    let _limits = heap.config();
    let section = dom.number() as u16;
    flag_is(heap, dom, section, false)
}

/// One look at the flag of a section: whether it has told its end.
pub fn done(heap: &Heap, dom: &mut Domain, section: u32) -> bool
    requires runs { Runs heap.now dom.old }
    requires section { section < 8 }
    ensures looks { LooksAt heap.now dom.old dom.new section (pos 2) result }
    ensures rest { ChangesRegisters dom.old dom.new }
{
    flag_is(heap, dom, section as u16, true)
}

/// The end of the domain's own section: its flag becomes 2. The domain has room for one more field to be
/// remembered.
pub fn finish(heap: &Heap, dom: &mut Domain)
    requires runs { Runs heap.now dom.old }
    requires room { 1 ≤ dom.old.view.own.remembered.room }
    ensures makes { MakesAll heap.now dom.old dom.new (finish_commands dom.old.view.own.number) }
    ensures rest { ChangesWords dom.old dom.new }
{
    let _limits = heap.config();
    let section = dom.number() as u16;
    put_int(heap, dom, SCRATCH, 2);
    store(heap, dom, HIDDEN, section, SCRATCH);
}

// Stores the argument of a section: what a register holds, and 0 where it holds nothing.
fn pass_argument(heap: &Heap, dom: &mut Domain, section: u16, item: u8)
    requires runs { Runs heap.now dom.old }
    requires section { section < 8 }
    requires item { item < 14 }
    requires room { 2 ≤ dom.old.view.own.remembered.room }
    requires shows { ShowsAt heap.now dom.old item }
    ensures makes { PassesArgument heap.now dom.old dom.new section item }
    ensures rest { ChangesWords dom.old dom.new }
    ensures room { 1 ≤ dom.new.view.own.remembered.room }
{
    if let Value::Nothing = dom.register(item) {
        put_int(heap, dom, SCRATCH, 0);
        store(heap, dom, HIDDEN, ARGUMENTS + section, SCRATCH);
    } else {
        store(heap, dom, HIDDEN, ARGUMENTS + section, item);
    }
}

/// Begins a section: what register `item` holds becomes its argument, 0 where it holds nothing, and its
/// flag becomes 1. The domain has room for two more fields to be remembered, and knows that its trace gave
/// the register what it holds. Answers the reply of its last store.
pub fn begin(heap: &Heap, dom: &mut Domain, section: u32, item: u8) -> Reply
    requires runs { Runs heap.now dom.old }
    requires section { section < 8 }
    requires item { item < 14 }
    requires room { 2 ≤ dom.old.view.own.remembered.room }
    requires shows { ShowsAt heap.now dom.old item }
    ensures makes { Expands heap.now dom.old dom.new (Spawn section item) result }
    ensures rest { ChangesWords dom.old dom.new }
{
    pass_argument(heap, dom, section as u16, item);
    put_int(heap, dom, SCRATCH, 1);
    store(heap, dom, HIDDEN, section as u16, SCRATCH)
}
