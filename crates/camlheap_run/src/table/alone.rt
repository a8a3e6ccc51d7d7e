//! Runs a text of a table, and writes its replies.
ghost use Rattle.std.specs.Prelude.{◌≡◌, ◌<◌, ◌≤◌, length, IfOk, Option};
ghost use Rattle.heap_rule.specs.Ending.{EndedHeap};
ghost use Rattle.text_ends.specs.Faults.{Rose};
ghost use Rattle.table_text.specs.Texts.{most_lines};
ghost use Rattle.camlheap_run.specs.Outcome.{IsRunAnswer, IsWriteFault};
ghost use Rattle.camlheap_run.specs.Tables.{IsOpened, MayRunAlone, WritesFrontOfTable, WritesTable};

use crate::Status;
use crate::table::replies::write_answers;
use heap_rule::StartFault;
use model_core::state::Sizes;
use run_session::TableSession;
use std::alloc::{AllocError, Global};
use std::sync::Wait;
use table_run::keepers::OneDomain;
use table_run::run_text;
use table_text::TableText;
use table_text::machine::LineReply;
use text_ends::{Failed, Sink};

// How many slots the weak array has, each of them an ephemeron.
const SLOTS: u32 = 16;

/// A session that has made no command, and room for the replies.
#[derive(Drop)]
pub(crate) struct Opened {
    pub(crate) session: TableSession,
    pub(crate) room: Vec<LineReply>,
}

// Starts the heap. There is room for an ephemeron of each slot, and for one of each line.
fn open(alloc: Global, sizes: &Sizes, text: &TableText) -> Result<Opened, AllocError>
    requires sizes { MayRunAlone sizes.now }
    requires few { length text.now.lines ≤ most_lines text.now.version }
    ensures { IfOk result (IsOpened sizes.now text.now) }
{
    let room = Vec::with_capacity(alloc, text.len())?;
    let ephemerons = SLOTS + text.len() as u32;
    match TableSession::make(alloc, sizes.minor_words, sizes.pools, ephemerons) {
        Ok(session) => Ok(Opened { session, room }),
        Err(StartFault::Memory) => Err(AllocError),
        Err(StartFault::Config(_)) => unreachable!(),
    }
}

// Runs a text on a heap of its own, on this thread, and then writes the replies. All memory is taken before the first
// command.
pub(crate) fn run_table<R: Wait, K: Sink>(
    rt: &R,
    alloc: Global,
    sizes: &Sizes,
    text: &TableText,
    out: &mut K,
) -> Status
    requires sizes { MayRunAlone sizes.now }
    requires few { length text.now.lines ≤ most_lines text.now.version }
    ensures later { K.faults out.old ≤ K.faults out.new }
    ensures done { (ended : Option EndedHeap) → result ≡ Status.Done ended → WritesTable sizes.now text.now ended (K.written out.old) (K.written out.new) }
    ensures cut { (ended : Option EndedHeap) → result ≡ Status.WriteFault ended → WritesFrontOfTable sizes.now text.now ended (K.written out.old) (K.written out.new) }
    ensures fault { (ended : Option EndedHeap) → result ≡ Status.WriteFault ended → Rose (K.faults out.old) (K.faults out.new) }
    ensures failed { K.faults out.old < K.faults out.new → IsWriteFault result }
    ensures quiet { result ≡ Status.Memory → out.new ≡ out.old }
    ensures answers { IsRunAnswer result }
{
    let Opened { session, room } = match open(alloc, sizes, text) {
        Ok(opened) => opened,
        Err(AllocError) => return Status::Memory,
    };
    let mut domain = OneDomain { machine: session };
    let replies = run_text(&mut domain, rt, text, room);
    let OneDomain { machine } = domain;
    let ended = Some(machine.stop());
    match write_answers(out, &replies) {
        Ok(()) => Status::Done { ended },
        Err(Failed) => Status::WriteFault { ended },
    }
}
