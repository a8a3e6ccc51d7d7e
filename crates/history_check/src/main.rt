//! Tells whether a runtime's output for a script is one that the definitions allow: reads the script, a line `---` and the
//! output from standard input, and writes `legal` and the entries of a history that prints the output, or that no such
//! history was found, or that the search was given up. With `--schedule` it writes the schedule of the turns of that history in
//! its place. In place of the script a replay may stand, a schedule and then the script: then it writes `legal` where the output is
//! what the scheduled history prints, and else the first line that differs. Or the text of a table: then it writes `legal` and the
//! keys that go in a run of its machine, or that none was found. With `--domains N`, N from 2 on, such a text has a section for each
//! domain: then it writes `legal` and one order of all lines in which their machine answers so, or that none was found, or that the
//! search was given up.
//!
//! The judge of `judge_outputs` does the work over the two streams. It says what is proved: `legal` is written only where a legal
//! history makes the output, and then that history is. That there is none where none was found is shown by tests alone. Of a
//! replay both answers are proved, and of a table `legal`.
#![tactic(auto)]

ghost use Rattle.std.specs.Prelude.{◌≡◌, IfOk};
ghost use Rattle.model_core.specs.Domains.{IsWithinLimits};

mod bounded;
mod words;

use bounded::Bounded;
use judge_outputs::{
    Judged, JudgedReplay, JudgedTable, TurnsJudged, judge, judge_replay, judge_sections,
    judge_table, judge_turns,
};
use model_core::state::Sizes;
use std::alloc::Global;
use std::io::{BufReader, BufWriter, ErrorKind, Read, Write};
use std::process::ExitCode;
use std::{env, io};
use text_ends::{Sink, Source, StdSink, StdSource};
use text_script::schedule::text::ReplayFault;
use words::{Asked, read_asked};

// How many bytes are read ahead, and how many are gathered before they are written.
const GATHERED: usize = 65_536;

// The words aren't as they should be, what the judge answers, or that the history has no schedule.
#[derive(Clone, Copy)]
enum Outcome {
    Usage,
    Judged(Judged),
    NoSchedule,
    Replay(ReplayFault),
}

// What came of a replay. An output that differs is one for which there is no history.
fn outcome_of_replay(judged: JudgedReplay) -> Outcome {
    match judged {
        JudgedReplay::Legal => Outcome::Judged(Judged::Legal),
        JudgedReplay::Differs { .. } => Outcome::Judged(Judged::NoneFound),
        JudgedReplay::Replay(fault) => Outcome::Replay(fault),
        JudgedReplay::NoSeparator => Outcome::Judged(Judged::NoSeparator),
        JudgedReplay::TooLong => Outcome::Judged(Judged::TooLong),
        JudgedReplay::ReadFault => Outcome::Judged(Judged::ReadFault),
        JudgedReplay::WriteFault => Outcome::Judged(Judged::WriteFault),
        JudgedReplay::Memory => Outcome::Judged(Judged::Memory),
    }
}

// What came of a table's text.
fn judged_as(judged: JudgedTable) -> Judged {
    match judged {
        JudgedTable::Legal => Judged::Legal,
        JudgedTable::NoneFound { .. } => Judged::NoneFound,
        JudgedTable::Text(fault) => Judged::Script(fault),
        JudgedTable::NoSeparator => Judged::NoSeparator,
        JudgedTable::TooLong => Judged::TooLong,
        JudgedTable::ReadFault => Judged::ReadFault,
        JudgedTable::WriteFault => Judged::WriteFault,
        JudgedTable::Memory => Judged::Memory,
    }
}

// The words behind the program's name.
fn words_given(rt: &HostRuntime) -> io::Result<Vec<String>> {
    let mut words = Vec::new(rt.alloc());
    for (place, word) in env::args(rt)?.enumerate() {
        if place > 0 {
            words.push(word)?;
        }
    }
    Ok(words)
}

// What an error says that came where a fault of another kind would be this one.
fn outcome_of(error: io::Error, other: Outcome) -> Outcome {
    match error.kind() {
        ErrorKind::OutOfMemory => Outcome::Judged(Judged::Memory),
        _ => other,
    }
}

// What the words ask for.
fn asked(rt: &HostRuntime, alloc: Global) -> Result<Asked, Outcome>
    ensures { IfOk result (λ asked. IsWithinLimits asked.sizes) }
{
    let words = match words_given(rt) {
        Ok(words) => words,
        Err(error) => return Err(outcome_of(error, Outcome::Usage)),
    };
    match read_asked(alloc, words) {
        Ok(Some(asked)) => Ok(asked),
        Ok(None) => Err(Outcome::Usage),
        Err(_) => Err(Outcome::Judged(Judged::Memory)),
    }
}

// Judges what a source has, and writes the history or its schedule.
fn judge_asked<S: Source, K: Sink>(
    rt: &HostRuntime,
    asked: &Asked,
    src: &mut S,
    out: &mut K,
) -> Outcome
    requires { IsWithinLimits asked.now.sizes }
{
    let mut search = Bounded::new(rt, asked.states);
    if !asked.schedule {
        return Outcome::Judged(judge(rt.alloc(), &asked.sizes, src, out, &mut search));
    }
    match judge_turns(rt.alloc(), &asked.sizes, src, out, &mut search) {
        TurnsJudged::Printed => Outcome::Judged(Judged::Legal),
        TurnsJudged::NoSchedule => Outcome::NoSchedule,
        TurnsJudged::Other(judged) => Outcome::Judged(judged),
    }
}

// The first line of a replay, and how that of a table's text begins.
const REPLAY: &[u8] = b"schedule 1\n";

const TABLE: &[u8] = b"table ";

// The first bytes, as many as the first line of a replay has, or all where there are fewer.
fn front_of<R: Read>(alloc: Global, input: &mut R) -> io::Result<Vec<u8>> {
    let mut front = Vec::new(alloc);
    input.take(REPLAY.len() as u64).read_to_end(&mut front)?;
    Ok(front)
}

// The sizes of a heap of one domain: that of a table.
#[tactic(auto, using(crate::proofs::SizeLemmas::alone))]
fn alone(sizes: &Sizes) -> Sizes
    requires { IsWithinLimits sizes.now }
    ensures one { result ≡ record sizes.now { domains = 1 } }
    ensures limits { IsWithinLimits result }
{
    Sizes {
        domains: 1,
        ..*sizes
    }
}

// Judges what a source has: the text of a table, for one domain or with sections.
fn judge_text<S: Source, K: Sink>(alloc: Global, asked: &Asked, src: &mut S, out: &mut K) -> Outcome
    requires { IsWithinLimits asked.now.sizes }
{
    if asked.sections {
        let domains = asked.sizes.domains;
        Outcome::Judged(judge_sections(alloc, domains, asked.states, src, out))
    } else {
        Outcome::Judged(judged_as(judge_table(alloc, &alone(&asked.sizes), src, out)))
    }
}

// Judges what a source has, by its first bytes: a replay, the text of a table, or else a script.
fn judge_by<S: Source, K: Sink>(
    rt: &HostRuntime,
    asked: &Asked,
    front: &[u8],
    src: &mut S,
    out: &mut K,
) -> Outcome
    requires { IsWithinLimits asked.now.sizes }
{
    if front == REPLAY {
        outcome_of_replay(judge_replay(rt.alloc(), &asked.sizes, src, out))
    } else if front.starts_with(TABLE) {
        judge_text(rt.alloc(), asked, src, out)
    } else {
        judge_asked(rt, asked, src, out)
    }
}

// Judges what standard input has.
fn run(rt: &HostRuntime, asked: &Asked) -> io::Result<Outcome>
    requires { IsWithinLimits asked.now.sizes }
{
    let alloc = rt.alloc();
    let mut input = BufReader::with_capacity(alloc, GATHERED, rt.stdin())?;
    let front = front_of(alloc, &mut input)?;
    let mut src = StdSource::make(front.as_slice().chain(input));
    let mut out = StdSink::make(BufWriter::with_capacity(alloc, GATHERED, rt.stdout())?);
    let outcome = judge_by(rt, asked, &front, &mut src, &mut out);
    match out.flush() {
        Ok(()) => Ok(outcome),
        Err(_) => Ok(Outcome::Judged(Judged::WriteFault)),
    }
}

// Says what is wrong with a replay, as `camlheap` does.
fn tell_replay_fault(rt: &HostRuntime, fault: ReplayFault) -> io::Result<()> {
    match fault {
        ReplayFault::Schedule { line } => eprintln!(rt; "schedule line {line}"),
        ReplayFault::Script(fault) => eprintln!(rt; "{fault}"),
        ReplayFault::NotReplayable { why } => eprintln!(rt; "not replayable: {why}"),
        ReplayFault::Memory => eprintln!(rt; "out of memory"),
    }
}

// Says what went wrong with a script.
fn tell_judged(rt: &HostRuntime, judged: Judged) -> io::Result<()> {
    match judged {
        Judged::Legal | Judged::NoneFound | Judged::GaveUp => Ok(()),
        Judged::Script(fault) => eprintln!(rt; "{fault}"),
        Judged::NoSeparator => eprintln!(rt; "no line --- between the script and the output"),
        Judged::TooLong => eprintln!(rt; "more than 1073741823 bytes"),
        Judged::ReadFault => eprintln!(rt; "read fault"),
        Judged::WriteFault => eprintln!(rt; "write fault"),
        Judged::Memory => eprintln!(rt; "out of memory"),
    }
}

// Says what went wrong.
fn tell(rt: &HostRuntime, outcome: Outcome) -> io::Result<()> {
    match outcome {
        Outcome::Usage => {
            eprintln!(rt;
                "usage: history_check [--schedule] [--domains N] [--minor W] [--pools P] [--states S]"
            )
        }
        Outcome::NoSchedule => eprintln!(rt; "history_check: the history has no schedule"),
        Outcome::Judged(judged) => tell_judged(rt, judged),
        Outcome::Replay(fault) => tell_replay_fault(rt, fault),
    }
}

// The statuses are those of `camlheap`, and three more.
fn status_number(outcome: Outcome) -> u8 {
    match outcome {
        Outcome::Usage => 1,
        Outcome::Judged(Judged::Legal) => 0,
        Outcome::Judged(Judged::Script(_) | Judged::NoSeparator | Judged::TooLong) => 2,
        Outcome::Judged(Judged::ReadFault) => 3,
        Outcome::Judged(Judged::WriteFault) => 4,
        Outcome::Judged(Judged::Memory) => 5,
        Outcome::Judged(Judged::NoneFound) => 6,
        Outcome::Judged(Judged::GaveUp) => 7,
        Outcome::NoSchedule => 8,
        Outcome::Replay(_) => 2,
    }
}

fn main(rt: HostRuntime) -> ExitCode {
    let outcome = match asked(&rt, rt.alloc()) {
        Ok(asked) => match run(&rt, &asked) {
            Ok(outcome) => outcome,
            Err(error) => outcome_of(error, Outcome::Judged(Judged::ReadFault)),
        },
        Err(outcome) => outcome,
    };
    let _ = tell(&rt, outcome);
    ExitCode::from(status_number(outcome))
}
