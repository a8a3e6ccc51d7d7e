//! Each public call once on its happy path, and the adapters over memory.
ghost use Rattle.std.specs.Prelude.{◌≡◌, IfOk};

use crate::words::same::same;
use std::alloc::Global;
use std::io;
use std::io::{BufWriter, ErrorKind, Read, Write};
use std::sync::atomic::{AtomicUsize, Ordering};
use std::test::Fail;
use text_ends::{
    Failed, Gate, LengthSink, MemSink, MemSource, NoGate, Sink, Source, StdSink, StdSource,
    SureSource,
};

// Reads to the end, and gives how many bytes there were, or the number of the read that failed.
fn read_out<S: Source>(source: &mut S, buf: &mut [u8]) -> Result<usize, u32> {
    let mut count: usize = 0;
    for turn in 1..1000u32 {
        match source.read(buf) {
            Ok(0) => break,
            Ok(n) => count = count.saturating_add(n),
            Err(Failed) => return Err(turn),
        }
    }
    Ok(count)
}

#[test]
fn sources_in_memory(rt: HostRuntime) -> Result<(), Fail> {
    let alloc: Global = rt.alloc();
    let bytes = vec![in alloc; 7u8; 59]?;
    let mut source = MemSource::make(bytes, 16, vec![in alloc; 3u32]?);
    same(&rt, read_out(&mut source, &mut [0; 64]), Err(3));
    same(&rt, read_out(&mut source, &mut [0; 64]), Ok(27));
    let mut sure = SureSource::make(vec![in alloc; 7u8; 59]?, 16);
    same(&rt, read_out(&mut sure, &mut [0; 64]), Ok(59));
    Ok(())
}

#[test]
fn sinks_in_memory(rt: HostRuntime) -> Result<(), Fail> {
    let alloc: Global = rt.alloc();
    let mut sink = MemSink::make(alloc, 5, 4, vec![in alloc; 2u32]?)?;
    same(&rt, sink.write(b"domain 0\n"), Ok(4));
    same(&rt, sink.write(b"in 0\n"), Err(Failed));
    same(&rt, sink.write(b"in 0\n"), Ok(1));
    same(&rt, sink.write(b"n 0\n"), Err(Failed));
    same(&rt, sink.write(b""), Ok(0));
    same(&rt, sink.bytes(), b"domai".as_slice());
    let mut counted = LengthSink::make();
    same(&rt, counted.write(b"domain 0\n"), Ok(9));
    same(&rt, counted.length(), 9);
    Ok(())
}

#[test]
fn a_reader_of_std(rt: HostRuntime) {
    let mut given: &[u8] = b"heap 1\n";
    let mut source = StdSource::make(&mut given);
    same(&rt, read_out(&mut source, &mut [0; 4]), Ok(7));
}

#[test]
fn a_writer_of_std(rt: HostRuntime) -> Result<(), Fail> {
    let mut held: Vec<u8> = Vec::new(rt.alloc());
    let mut sink = StdSink::make(&mut held);
    same(&rt, sink.write(b"ok\n"), Ok(3));
    let mut room = [0u8; 2];
    let mut short: &mut [u8] = &mut room;
    let mut full = StdSink::make(&mut short);
    same(&rt, full.write(b"ok\n"), Ok(2));
    same(&rt, full.write(b"\n"), Err(Failed));
    NoGate.before(0, 0);
    NoGate.after(0, 0);
    Ok(())
}

// Is interrupted so often, and then gives and takes all that it is asked for.
#[derive(Drop)]
struct Interrupted {
    left: u32,
}

impl Interrupted {
    fn come_through(&mut self, asked: usize) -> io::Result<usize>
        ensures { IfOk result (λ n. n ≡ asked) }
    {
        if self.left == 0 {
            return Ok(asked);
        }
        self.left -= 1;
        Err(io::Error::from(ErrorKind::Interrupted))
    }
}

impl Read for Interrupted {
    fn read(&mut self, buf: &mut [u8]) -> io::Result<usize> {
        self.come_through(buf.len())
    }
}

impl Write for Interrupted {
    fn write(&mut self, buf: &[u8]) -> io::Result<usize> {
        self.come_through(buf.len())
    }

    fn flush(&mut self) -> io::Result<()> {
        Ok(())
    }
}

#[test]
fn interrupted_calls_are_made_again(rt: HostRuntime) {
    let mut reader = Interrupted { left: 2 };
    same(&rt, StdSource::make(&mut reader).read(&mut [0; 4]), Ok(4));
    let mut writer = Interrupted { left: 2 };
    same(&rt, StdSink::make(&mut writer).write(b"ok\n"), Ok(3));
    same(&rt, (reader.left, writer.left), (0, 0));
}

// Counts the bytes that it takes.
#[derive(Drop)]
struct Counting<'a> {
    taken: &'a AtomicUsize,
}

impl Write for Counting<'_> {
    fn write(&mut self, buf: &[u8]) -> io::Result<usize> {
        self.taken.fetch_add(buf.len(), Ordering::SeqCst);
        Ok(buf.len())
    }

    fn flush(&mut self) -> io::Result<()> {
        Ok(())
    }
}

#[test]
fn a_flush_hands_on_what_is_held(rt: HostRuntime) -> Result<(), Fail> {
    let alloc: Global = rt.alloc();
    let taken = AtomicUsize::new(0);
    let writer = Counting { taken: &taken };
    let mut sink = StdSink::make(BufWriter::with_capacity(alloc, 16, writer)?);
    same(&rt, sink.write(b"ok\n"), Ok(3));
    same(&rt, taken.load(Ordering::SeqCst), 0);
    same(&rt, sink.flush(), Ok(()));
    same(&rt, taken.load(Ordering::SeqCst), 3);
    let mut room = [0u8; 2];
    let mut short: &mut [u8] = &mut room;
    let mut full = StdSink::make(BufWriter::with_capacity(alloc, 16, &mut short)?);
    same(&rt, full.write(b"ok\n"), Ok(3));
    same(&rt, full.flush(), Err(Failed));
    Ok(())
}
