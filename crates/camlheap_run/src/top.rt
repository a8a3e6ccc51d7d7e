//! The top call, by what the words ask for.
ghost use Rattle.std.specs.Prelude.{◌≡◌, Option, Some};
ghost use Rattle.model_core.specs.declared.state.Sizes.{Sizes};
ghost use Rattle.heap_rule.specs.Ending.{EndedHeap};
ghost use Rattle.text_ends.specs.Faults.{Rose};
ghost use Rattle.camlheap_run.specs.Outcome.{RunsToEnd, StopsWriting};
ghost use Rattle.camlheap_run.specs.Promises.{Decides, GeneratedAnswers, Refusals, ReplayAnswers, Stays, TableAnswers};
ghost use Rattle.camlheap_run.specs.Words.{asked};

use crate::Status;
use crate::generate::generate_script;
use crate::run::load::load;
use crate::source::{run_replay_source, run_source, run_table_source};
use std::alloc::{AllocError, Global};
use std::sync::Wait;
use std::thread::Threads;
use text_ends::{Gate, Sink, Source};
use text_script::words::{Job, read_words};

/// Does what the words ask for. `words` are the words of the command line behind the program's name, as
/// [`words_fit`](crate::words_fit) has them:
///
/// - `run` reads a script from the source, runs its sections on one shared heap, in threads, and writes the replies to the
///   sink: for each domain the line `domain d` and the lines of its replies.
/// - `replay` reads a schedule and a script from the source, runs the script's sections on one shared heap, on this thread,
///   with the turns and the complete collections of the schedule, and writes the replies as `run` does. They are the same each
///   time: those of the scheduled history.
/// - `table` reads a text of a table from the source, runs it line by line on a heap of one domain, on this thread, and
///   writes a line for each of its lines. With several domains it runs the section of each in a thread, all on one weak map and
///   the same slots, and writes for each domain the line `domain d` and the lines of its section.
/// - `gen` reads nothing and writes a generated script.
/// - `load` reads nothing, runs the generated script on a heap of the usual sizes, and writes a line for each domain:
///   `domain d commands R ints I sum S`, with the number of its commands, the number of replies `int v` among theirs, and
///   the sum of these `v` modulo 1,000,003, from 0 to 1,000,002.
///
/// The refusals come in the order in which the work is done: the words, reading, too long a text, the schedule, the script,
/// whether it can be replayed, running, writing. A read or a
/// write that failed isn't tried again. The sink is handed whole lines: of `run` the section of a domain at once, which its own
/// thread has printed, of `replay` up to 64 replies, and each other line by itself. Want of memory may come at any time before
/// the first byte is written.
///
/// It waits for its threads, and so may wait without end: nothing is said of when they run. The clauses also leave
/// free which allocations are answered `full`.
pub fn camlheap<R: Threads + Wait + Sync, S: Source, K: Sink, G: Gate + Sync>(
    rt: &R,
    alloc: Global,
    words: &[String],
    src: &mut S,
    out: &mut K,
    gate: &G,
) -> Status
    // What was read and written by `run`, where it ended well, and where a write failed.
    ensures done { (z : Sizes) (ended : Option EndedHeap) → asked words.now ≡ Some (Job.Run z)
        → result ≡ Status.Done ended
        → RunsToEnd z ended (S.left src.old) (S.left src.new) (K.written out.old) (K.written out.new) }
    ensures cut { (z : Sizes) (ended : Option EndedHeap) → asked words.now ≡ Some (Job.Run z)
        → result ≡ Status.WriteFault ended
        → StopsWriting z ended (S.left src.old) (S.left src.new) (K.written out.old) (K.written out.new) }

    // The same of `replay` and of `table`, and what was written by `gen` and `load`.
    ensures replay { ReplayAnswers (asked words.now) result
        (S.left src.old) (S.left src.new) (K.written out.old) (K.written out.new) }
    ensures table { TableAnswers (asked words.now) result
        (S.left src.old) (S.left src.new) (K.written out.old) (K.written out.new) }
    ensures generated { GeneratedAnswers (asked words.now) result (K.written out.old) (K.written out.new) }

    // What stays: the sink where nothing was to be written, and the source where it isn't to be read.
    ensures stays { Stays (asked words.now) result src.old src.new out.old out.new }

    // When each other answer comes. A read or a write that failed decides the answer: none is tried again.
    ensures refusals { Refusals (asked words.now) result
        (S.left src.old) (S.left src.new) (S.faults src.old) (S.faults src.new) (K.faults out.old) (K.faults out.new) }

    // Where the source tells its bytes, they decide what `run`, `replay` and `table` answer, and `gen` and `load` are done,
    // unless a read or a write fails or memory runs out.
    ensures decided { Decides (asked words.now) result (S.left src.old)
        (Rose (S.faults src.old) (S.faults src.new)) (Rose (K.faults out.old) (K.faults out.new)) }
{
    match read_words(alloc, words) {
        Ok(Some(Job::Run(sizes))) => run_source(rt, alloc, &sizes, src, out, gate),
        Ok(Some(Job::Replay(sizes))) => run_replay_source(alloc, &sizes, src, out),
        Ok(Some(Job::Table(sizes))) => run_table_source(rt, alloc, &sizes, src, out),
        Ok(Some(Job::Gen(generated))) => generate_script(alloc, &generated, out),
        Ok(Some(Job::Load(generated))) => load(rt, alloc, &generated, out, gate),
        Ok(None) => Status::Usage,
        Err(AllocError) => Status::Memory,
    }
}
