//! Reads and writes that fail or are short.
use crate::scripts::program::{PLAIN, PLAIN_PRINTS, is_given, run_program, sink, source};
use std::test::Fail;

// Of the script of the plain path: the size of the pieces that are read, the read that fails, the size of those that are
// written, the write that fails, and the number, the line and the output of the run.
type Row = (usize, u32, usize, u32, u8, &'static str, &'static str);

const READ: &str = "read fault\n";

const WRITE: &str = "write fault\n";

// No read or write has the number 0. The heading is written by itself, and the replies at once.
const ROWS: [Row; 20] = [
    (16, 1, 4096, 0, 3, READ, ""),
    (16, 2, 4096, 0, 3, READ, ""),
    (16, 3, 4096, 0, 3, READ, ""),
    (16, 4, 4096, 0, 3, READ, ""),
    (16, 5, 4096, 0, 3, READ, ""),
    (4096, 0, 4, 1, 4, WRITE, ""),
    (4096, 0, 4, 2, 4, WRITE, "doma"),
    (4096, 0, 4, 3, 4, WRITE, "domain 0"),
    (4096, 0, 4, 4, 4, WRITE, "domain 0\n"),
    (4096, 0, 4, 5, 4, WRITE, "domain 0\nblk "),
    (4096, 0, 4096, 1, 4, WRITE, ""),
    (4096, 0, 4096, 2, 4, WRITE, "domain 0\n"),
    (4096, 0, 4096, 3, 0, "", PLAIN_PRINTS),
    (4096, 0, 11, 3, 4, WRITE, "domain 0\nblk 0:1\nok\n"),
    // The size of pieces changes nothing.
    (1, 0, 1, 0, 0, "", PLAIN_PRINTS),
    (2, 0, 2, 0, 0, "", PLAIN_PRINTS),
    (3, 0, 3, 0, 0, "", PLAIN_PRINTS),
    (7, 0, 7, 0, 0, "", PLAIN_PRINTS),
    (59, 0, 59, 0, 0, "", PLAIN_PRINTS),
    (4096, 0, 4096, 0, 0, "", PLAIN_PRINTS),
];

#[test]
fn each_read_and_each_write_fails_in_turn(rt: HostRuntime) -> Result<(), Fail> {
    for (read, no_read, written, no_write, number, line, output) in &ROWS {
        let alloc = rt.alloc();
        let given = run_program(
            &rt,
            alloc,
            "run --domains 1",
            source(alloc, PLAIN, (*read).max(1), &[*no_read])?,
            sink(alloc, (*written).max(1), &[*no_write])?,
        )?;
        is_given(&rt, &given, *number, line, output);
    }
    Ok(())
}
