//! The end of the trace of a heap's only domain.
ghost use Rattle.std.specs.Prelude.{◌≡◌, ◌≤◌, List, length, false, true, None};
ghost use Rattle.model_core.specs.declared.entry.Entry.{Entry};
ghost use Rattle.heap_rule.specs.Token.{IsIn};
ghost use Rattle.heap_rule.specs.Limits.{sizes_in};
ghost use Rattle.run_turns.specs.Runs.{AddsRan};
ghost use Rattle.run_alone.specs.Idling.{Idles, Over};
ghost use Rattle.run_turns.specs.declared.supply.Supply.TheVariants.{Closed};

use heap_rule::Heap;
use run_turns::{DomainRun, go_on};

/// Ends the trace of a run that gets no more command, and whose domain runs. The finalisers that wait run before that, each
/// once.
pub fn end(heap: &Heap, run: &mut DomainRun)
    requires here { IsIn run.old.token heap.now }
    requires closed { run.old.supply ≡ Closed }
    requires runs { run.old.left ≡ None }
    requires past { length run.old.commands ≤ run.old.next }
    requires running { run.old.ended ≡ false }
    ensures here { IsIn run.new.token heap.now }
    ensures ended { run.new.ended ≡ true }
    ensures ran { AddsRan (sizes_in heap.now.config) run.old run.new }
    ensures over { (front : List Entry) → Idles heap.now front run.old → Over heap.now front run.new }
{
    'turns: loop {
        go_on(heap, run);
        run.shows_faithful();
        if run.has_ended() {
            return;
        }
    }
}
