//! Generated scripts, written and run. Nothing is read for them.
ghost use Rattle.std.specs.Prelude.{◌≤◌};

use crate::scripts::program::{Output, is_given, run_program, sink, source, words_in};
use camlheap_run::{camlheap, status_number};
use model_core::command::Command;
use std::alloc::{AllocError, Global};
use std::sync::Wait;
use std::test::Fail;
use std::thread::Threads;
use text_ends::{LengthSink, MemSink, MemSource, NoGate};
use text_script::{Line, Version, generate, print_command, read_script};

// Runs the program with these words over a source that fails at its first read.
fn run_unread<R: Threads + Wait + Sync>(
    rt: &R,
    alloc: Global,
    words: &str,
    sink: MemSink,
) -> Result<Output, AllocError> {
    run_program(rt, alloc, words, source(alloc, "", 4096, &[1])?, sink)
}

// Words, the size of pieces, the write that fails, the number and the line of the run's end, and what is written. No write has
// the number 0.
const WRITTEN: [(&str, usize, u32, u8, &str, &str); 8] = [
    (
        "gen 7 1 5",
        4096,
        0,
        0,
        "",
        "heap 1\ndomain 0\nalloc 1 0 9\nint 2 7\nstore 1 0 2\nint 3 0\nmove 3 1\n",
    ),
    ("gen 0 1 0", 4096, 0, 0, "", "heap 1\ndomain 0\n"),
    (
        "load 7 2 2000",
        4096,
        0,
        0,
        "",
        "domain 0 commands 2000 ints 200 sum 61100\ndomain 1 commands 2000 ints 200 sum 61300\n",
    ),
    (
        "load 5 1 0",
        4096,
        0,
        0,
        "",
        "domain 0 commands 0 ints 0 sum 0\n",
    ),
    ("gen 7 1 5", 4, 2, 4, "write fault\n", "heap"),
    (
        "gen 7 1 5",
        4096,
        3,
        4,
        "write fault\n",
        "heap 1\ndomain 0\n",
    ),
    ("load 7 2 20", 4096, 1, 4, "write fault\n", ""),
    (
        "load 7 2 20",
        4096,
        2,
        4,
        "write fault\n",
        "domain 0 commands 20 ints 2 sum 17\n",
    ),
];

#[test]
fn scripts_are_generated_and_run_without_a_read(rt: HostRuntime) -> Result<(), Fail> {
    for (words, piece, failing, number, line, written) in &WRITTEN {
        let alloc = rt.alloc();
        let sink = sink(alloc, (*piece).max(1), &[*failing])?;
        let given = run_unread(&rt, alloc, words, sink)?;
        is_given(&rt, &given, *number, line, written);
    }
    Ok(())
}

// Whether two commands have the same line.
fn is_same(one: &Command, other: &Command) -> bool {
    let mut first: Line = [0; 64];
    let mut second: Line = [0; 64];
    print_command(one, &mut first) == print_command(other, &mut second)
        && first.as_slice() == second.as_slice()
}

// Whether two sections have the same lines.
fn are_same(ones: &[Command], others: &[Command]) -> bool {
    ones.len() == others.len() && ones.iter().zip(others).all(|(a, b)| is_same(a, b))
}

#[test]
fn a_written_script_is_the_generated_one(rt: HostRuntime) -> Result<(), Fail> {
    let alloc = rt.alloc();
    let given = run_unread(&rt, alloc, "gen 7 2 2000", sink(alloc, 4096, &[])?)?;
    let read = read_script(alloc, Version::Two, 2, &given.written)?;
    let generated = generate(alloc, 7, 2, 2000)?;
    assert_eq!(rt; (read.sections(), generated.sections()), (2, 2));
    for domain in 0..read.sections().min(generated.sections()) {
        let right = are_same(read.section(domain), generated.section(domain));
        assert!(rt; right, "domain {domain}");
    }
    Ok(())
}

#[test]
fn a_written_script_is_run(rt: HostRuntime) -> Result<(), Fail> {
    let alloc = rt.alloc();
    let script = run_unread(&rt, alloc, "gen 7 2 2000", sink(alloc, 4096, &[])?)?;
    let mut first = MemSource::make(
        Vec::from_slice(alloc, &script.written)?,
        4096,
        Vec::new(alloc),
    );
    let mut counted = LengthSink::make();
    let words = words_in(alloc, "run")?;
    let status = camlheap(&rt, alloc, &words, &mut first, &mut counted, &NoGate);
    assert_eq!(rt; (status_number(&status), counted.length() > 0), (0, true));
    let second = MemSource::make(script.written, 4096, Vec::new(alloc));
    let given = run_program(&rt, alloc, "run", second, sink(alloc, 4096, &[])?)?;
    assert_eq!(rt; (given.number, given.written.is_empty()), (0, false));
    Ok(())
}

#[test]
fn the_largest_script_has_two_million_bytes(rt: HostRuntime) -> Result<(), Fail> {
    let alloc = rt.alloc();
    let words = words_in(alloc, "gen 7 8 25000")?;
    let mut source = source(alloc, "", 4096, &[])?;
    let mut sink = LengthSink::make();
    let status = camlheap(&rt, alloc, &words, &mut source, &mut sink, &NoGate);
    assert_eq!(rt; (status_number(&status), sink.length()), (0, 2_215_146));
    Ok(())
}
