//! Runs a script under a schedule, and writes its replies.
ghost use Rattle.std.specs.Prelude.{◌≡◌, ◌<◌, ◌≤◌, Option};
ghost use Rattle.heap_rule.specs.Ending.{EndedHeap};
ghost use Rattle.text_ends.specs.Faults.{Rose};
ghost use Rattle.camlheap_run.specs.Outcome.{IsRunAnswer, IsWriteFault};
ghost use Rattle.camlheap_run.specs.Reading.{IsSpelledReplay};
ghost use Rattle.camlheap_run.specs.Replaying.{MayReplay, WritesFrontOfReplay, WritesReplay};

use crate::Status;
use crate::run::begin::{Begun, begin, config_of};
use crate::run::end::end;
use crate::write::report::{Report, write_report};
use model_core::state::Sizes;
use run_replay::replay_runs;
use std::alloc::{AllocError, Global};
use text_ends::{Failed, Sink};
use text_script::schedule::text::Replay;

// Runs the sections of a script on one heap by a schedule, on this thread, and then writes the replies. All memory is
// taken before the first command.
pub(crate) fn run_replay<K: Sink>(
    alloc: Global,
    sizes: &Sizes,
    replay: Replay,
    out: &mut K,
) -> Status
    requires limits { MayReplay sizes.now }
    requires replay { IsSpelledReplay sizes.now replay }
    ensures later { K.faults out.old ≤ K.faults out.new }
    ensures done { (ended : Option EndedHeap) → result ≡ Status.Done ended → WritesReplay sizes.now replay ended (K.written out.old) (K.written out.new) }
    ensures cut { (ended : Option EndedHeap) → result ≡ Status.WriteFault ended → WritesFrontOfReplay sizes.now replay ended (K.written out.old) (K.written out.new) }
    ensures fault { (ended : Option EndedHeap) → result ≡ Status.WriteFault ended → Rose (K.faults out.old) (K.faults out.new) }
    ensures failed { K.faults out.old < K.faults out.new → IsWriteFault result }
    ensures quiet { result ≡ Status.Memory → out.new ≡ out.old }
    ensures answers { IsRunAnswer result }
{
    let Replay { schedule, script } = replay;
    let Begun { heap, runs, room } = match begin(alloc, config_of(sizes, &script), script) {
        Ok(begun) => begun,
        Err(AllocError) => return Status::Memory,
    };
    let (heap, runs) = match replay_runs(alloc, heap, runs, schedule.items()) {
        Ok(driven) => driven,
        Err(AllocError) => return Status::Memory,
    };
    let written = write_report(out, Report::Replies, &runs);
    let ended = Some(end(heap, runs, room));
    match written {
        Ok(()) => Status::Done { ended },
        Err(Failed) => Status::WriteFault { ended },
    }
}
