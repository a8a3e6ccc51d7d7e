//! The program over memory.
ghost use Rattle.std.specs.Prelude.{◌≤◌};

use camlheap_run::{Status, camlheap, fault_line, status_number};
use std::alloc::{AllocError, Global};
use std::process::Abort;
use std::sync::Wait;
use std::thread::Threads;
use text_ends::{Gate, MemSink, MemSource, NoGate};

/// The script of the plain path, of 59 bytes, and what its run prints.
pub(crate) const PLAIN: &str = "heap 1\ndomain 0\nalloc 1 0 2\nint 2 7\nstore 1 0 2\nload 3 1 0\n";

pub(crate) const PLAIN_PRINTS: &str = "domain 0\nblk 0:1\nok\nok\nint 7\n";

/// How a run ended, its line for standard error, and what it wrote.
#[derive(Drop)]
pub(crate) struct Output {
    pub number: u8,
    pub line: Vec<u8>,
    pub written: Vec<u8>,
}

/// The words of a command line without quotes.
pub(crate) fn words_in(alloc: Global, line: &str) -> Result<Vec<String>, AllocError> {
    let mut words = Vec::new(alloc);
    for word in line.split_whitespace() {
        words.push(String::from_str(alloc, word)?)?;
    }
    Ok(words)
}

/// Runs the program with these words over this source and this sink.
pub(crate) fn run_program<R: Threads + Wait + Sync>(
    rt: &R,
    alloc: Global,
    words: &str,
    source: MemSource,
    sink: MemSink,
) -> Result<Output, AllocError> {
    run_with_gate(rt, alloc, words, source, sink, &NoGate)
}

/// Runs the program with these words over a source and a sink that never fail.
pub(crate) fn run_plain<R: Threads + Wait + Sync>(
    rt: &R,
    alloc: Global,
    words: &str,
    script: &str,
) -> Result<Output, AllocError> {
    run_program(
        rt,
        alloc,
        words,
        source(alloc, script, 4096, &[])?,
        sink(alloc, 4096, &[])?,
    )
}

/// Runs the program with these words over this script. It must take all and print exactly this.
pub(crate) fn runs_to<R: Threads + Wait + Sync + Abort>(
    rt: &R,
    alloc: Global,
    words: &str,
    script: &str,
    prints: &str,
) -> Result<(), AllocError> {
    let given = run_plain(rt, alloc, words, script)?;
    is_given(rt, &given, 0, "", prints);
    Ok(())
}

/// Stops the test where a run didn't end with this number, this line and this output. A test that calls it is proved
/// much faster than one that compares each by itself.
pub(crate) fn is_given(rt: &impl Abort, given: &Output, number: u8, line: &str, written: &str) {
    assert_eq!(rt; given.number, number);
    assert_eq!(rt; given.line.as_slice(), line.as_bytes());
    assert_eq!(rt; given.written.as_slice(), written.as_bytes());
}

/// The same with a gate.
pub(crate) fn run_with_gate<R: Threads + Wait + Sync, G: Gate + Sync>(
    rt: &R,
    alloc: Global,
    words: &str,
    mut source: MemSource,
    mut sink: MemSink,
    gate: &G,
) -> Result<Output, AllocError> {
    let words = words_in(alloc, words)?;
    let status: Status = camlheap(rt, alloc, &words, &mut source, &mut sink, gate);
    let mut line = [0u8; 128];
    let length = fault_line(&status, &mut line);
    Ok(Output {
        number: status_number(&status),
        line: Vec::from_slice(alloc, &line[..length])?,
        written: Vec::from_slice(alloc, sink.bytes())?,
    })
}

/// A source of this text, in pieces of at least one byte, that fails at these reads.
pub(crate) fn source(
    alloc: Global,
    text: &str,
    piece: usize,
    fails: &[u32],
) -> Result<MemSource, AllocError>
    requires { 1 ≤ piece }
{
    let bytes = Vec::from_slice(alloc, text.as_bytes())?;
    Ok(MemSource::make(bytes, piece, Vec::from_slice(alloc, fails)?))
}

/// A sink with ample room, in pieces of at least one byte, that fails at these writes.
pub(crate) fn sink(alloc: Global, piece: usize, fails: &[u32]) -> Result<MemSink, AllocError>
    requires { 1 ≤ piece }
{
    MemSink::make(alloc, 65_536, piece, Vec::from_slice(alloc, fails)?)
}
