//! A source without an end.
ghost use Rattle.std.specs.Prelude.{None};

use crate::scripts::program::words_in;
use camlheap_run::{Status, camlheap};
use std::test::Fail;
use text_ends::{Failed, MemSink, NoGate, Source};
use text_script::ScriptFault;

// Fills each buffer with spaces, and keeps how much it gave and the largest and the last buffer.
#[derive(Drop)]
struct Endless {
    given: u64,
    largest: usize,
    last: usize,
}

impl Source for Endless {
    ghost left = { λ _. None };

    ghost faults = { λ _. 0 };

    fn read(&mut self, buf: &mut [u8]) -> Result<usize, Failed> {
        buf.fill(b' ');
        self.given = self.given.saturating_add(buf.len() as u64);
        self.largest = self.largest.max(buf.len());
        self.last = buf.len();
        Ok(buf.len())
    }
}

#[test]
fn reading_stops_one_byte_past_the_limit(rt: HostRuntime) -> Result<(), Fail> {
    let alloc = rt.alloc();
    let words = words_in(alloc, "run --domains 1")?;
    let mut source = Endless {
        given: 0,
        largest: 0,
        last: 0,
    };
    let mut sink = MemSink::make(alloc, 64, 64, Vec::new(alloc))?;
    let status = camlheap(&rt, alloc, &words, &mut source, &mut sink, &NoGate);
    assert!(rt;
        matches!(
            &status,
            Status::Script(ScriptFault::TooLong { bytes: 16_777_217 })
        )
    );
    assert_eq!(rt;
        (source.given, source.largest, source.last),
        (16_777_217, 4096, 1)
    );
    assert_eq!(rt; sink.bytes().len(), 0);
    Ok(())
}
