//! Runs a generated script.
ghost use Rattle.std.specs.Prelude.{◌≡◌, ◌<◌, ◌≤◌, Option};
ghost use Rattle.heap_rule.specs.Ending.{EndedHeap};
ghost use Rattle.text_ends.specs.Faults.{Rose};
ghost use Rattle.text_script.specs.Words.Jobs.{IsGenerable};
ghost use Rattle.camlheap_run.specs.Outcome.{LoadsToEnd, StopsLoading, IsWriteFault, IsRunAnswer};

use crate::Status;
use crate::run::script::run;
use crate::write::report::Report;
use std::alloc::{AllocError, Global};
use std::sync::Wait;
use std::thread::Threads;
use text_ends::{Gate, Sink};
use text_script::generate;
use text_script::words::Generated;

// Generates a script, runs it, and writes the summary. Nothing is read.
pub(crate) fn load<R: Threads + Wait + Sync, K: Sink, G: Gate + Sync>(
    rt: &R,
    alloc: Global,
    generated: &Generated,
    out: &mut K,
    gate: &G,
) -> Status
    requires { IsGenerable generated.now }
    ensures later { K.faults out.old ≤ K.faults out.new }
    ensures done { (ended : Option EndedHeap) → result ≡ Status.Done ended → LoadsToEnd generated.now ended (K.written out.old) (K.written out.new) }
    ensures cut { (ended : Option EndedHeap) → result ≡ Status.WriteFault ended → StopsLoading generated.now ended (K.written out.old) (K.written out.new) }
    ensures fault { (ended : Option EndedHeap) → result ≡ Status.WriteFault ended → Rose (K.faults out.old) (K.faults out.new) }
    ensures failed { K.faults out.old < K.faults out.new → IsWriteFault result }
    ensures quiet { result ≡ Status.Memory → out.new ≡ out.old }
    ensures answers { IsRunAnswer result }
{
    let sizes = generated.sizes();
    let script = match generate(alloc, generated.base, generated.domains, generated.commands) {
        Ok(script) => script,
        Err(AllocError) => return Status::Memory,
    };
    run(rt, alloc, &sizes, script, Report::Summary, out, gate)
}
