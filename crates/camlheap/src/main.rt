//! The program: the top call over the words of the command line, standard input and standard output.
#![tactic(auto)]

ghost use Rattle.std.specs.Prelude.{◌≡◌, ◌<◌, Option};
ghost use Rattle.heap_rule.specs.Ending.{EndedHeap};
ghost use Rattle.text_ends.specs.Adapters.{write_faults};
ghost use Rattle.text_ends.specs.Faults.{Rose};

use camlheap_run::{Status, camlheap, fault_line, status_number};
use std::alloc::Global;
use std::env::Env;
use std::io::{BufReader, BufWriter, ErrorKind, Read, Write};
use std::process::ExitCode;
use std::{env, io};
use text_ends::{NoGate, StdSink, StdSource};

// How many bytes are read ahead, and how many are gathered before they are written.
const GATHERED: usize = 65_536;

// The words behind the program's name.
fn words_given<R: Env + AllocGlobal>(rt: &R, alloc: Global) -> io::Result<Vec<String>> {
    let mut words = Vec::new(alloc);
    for (place, word) in env::args(rt)?.enumerate() {
        if place > 0 {
            words.push(word)?;
        }
    }
    Ok(words)
}

// The status once what was gathered is written too.
fn flushed<W: Write>(status: Status, out: &mut StdSink<W>) -> Status
    ensures kept { ¬ (Rose (write_faults out.old) (write_faults out.new)) → result ≡ status }
    ensures fault { (ended : Option EndedHeap) → status ≡ Status.Done ended → write_faults out.old < write_faults out.new → result ≡ Status.WriteFault ended }
{
    match (status, out.flush()) {
        (Status::Done { ended }, Err(_)) => Status::WriteFault { ended },
        (status, _) => status,
    }
}

// What an error says that came before the top call. A word that is no text isn't in the grammar of words.
fn status_of(error: io::Error) -> Status {
    match error.kind() {
        ErrorKind::OutOfMemory => Status::Memory,
        _ => Status::Usage,
    }
}

// The words, and the two streams with their buffers.
#[derive(Drop)]
struct Ends<I: Read + Drop, O: Write + Drop> {
    words: Vec<String>,
    src: StdSource<BufReader<I>>,
    out: StdSink<BufWriter<O>>,
}

fn ends_given<R: Env + AllocGlobal, I: Read + Drop, O: Write + Drop>(
    rt: &R,
    alloc: Global,
    input: I,
    output: O,
) -> io::Result<Ends<I, O>> {
    Ok(Ends {
        words: words_given(rt, alloc)?,
        src: StdSource::make(BufReader::with_capacity(alloc, GATHERED, input)?),
        out: StdSink::make(BufWriter::with_capacity(alloc, GATHERED, output)?),
    })
}

fn main(rt: HostRuntime) -> ExitCode {
    let alloc = rt.alloc();
    let status = match ends_given(&rt, alloc, rt.stdin(), rt.stdout()) {
        Ok(
            Ends {
                words,
                mut src,
                mut out,
            },
        ) => {
            let status = camlheap(&rt, alloc, &words, &mut src, &mut out, &NoGate);
            flushed(status, &mut out)
        }
        Err(error) => status_of(error),
    };
    let mut line = [0u8; 128];
    let length = fault_line(&status, &mut line);
    let _ = rt.stderr().write_all(&line[..length]);
    ExitCode::from(status_number(&status))
}
