//! The values that sections pass: arguments and results.
ghost use Rattle.std.specs.Prelude.{◌≡◌, ◌<◌, ◌≤◌, ◌+◌};
ghost use Rattle.model_core.specs.declared.command.Command.TheVariants.{Load, Store};
ghost use Rattle.heap_rule.specs.Running.{Runs, ChangesRegisters};
ghost use Rattle.do_fields.specs.Fields.Remembered.{ChangesRemembered};
ghost use Rattle.model_traces.specs.Spawns.Hidden.{argument_of, result_of};
ghost use Rattle.do_spawn.specs.Expanding.{MakesOne};

use crate::flags::HIDDEN;
use do_fields::fields::{load, store};
use heap_rule::{Domain, Heap};
use model_core::reply::Reply;

// The first fields with an argument and with a result.
const ARGUMENTS: u16 = 8;

const RESULTS: u16 = 16;

/// Loads the argument of the domain's own section into a register.
pub fn argument(heap: &Heap, dom: &mut Domain, dst: u8) -> Reply
    requires runs { Runs heap.now dom.old }
    requires dst { dst < 14 }
    ensures makes { MakesOne heap.now dom.old dom.new (Load dst 15 (argument_of dom.old.view.own.number)) result }
    ensures rest { ChangesRegisters dom.old dom.new }
{
    let _limits = heap.config();
    let section = dom.number() as u16;
    load(heap, dom, dst, HIDDEN, ARGUMENTS + section)
}

/// Stores what a register holds as the result of the domain's own section. The domain has room for one
/// more field to be remembered.
pub fn put_result(heap: &Heap, dom: &mut Domain, item: u8) -> Reply
    requires runs { Runs heap.now dom.old }
    requires item { item < 14 }
    requires room { 1 ≤ dom.old.view.own.remembered.room }
    ensures makes { MakesOne heap.now dom.old dom.new (Store 15 (result_of dom.old.view.own.number) item) result }
    ensures rest { ChangesRemembered dom.old dom.new }
{
    let _limits = heap.config();
    let section = dom.number() as u16;
    store(heap, dom, HIDDEN, RESULTS + section, item)
}

/// Loads the result of a section into a register.
pub fn take_result(heap: &Heap, dom: &mut Domain, dst: u8, section: u32) -> Reply
    requires runs { Runs heap.now dom.old }
    requires dst { dst < 14 }
    requires section { section < 8 }
    ensures makes { MakesOne heap.now dom.old dom.new (Load dst 15 (result_of section)) result }
    ensures rest { ChangesRegisters dom.old dom.new }
{
    load(heap, dom, dst, HIDDEN, RESULTS + section as u16)
}
