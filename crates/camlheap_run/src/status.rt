//! How a run of the program ended, as a number and as a line.
ghost use Rattle.std.specs.Prelude.{◌≡◌, ◌≤◌, ◌++◌, take, drop, length, decimal, codes};
ghost use Rattle.camlheap_run.specs.Status.{exit_number, line_of, fault_text};
ghost use Rattle.model_core.specs.Output.{line};

use crate::write::buffer::{put, put_number};
use heap_rule::Ended;
use text_script::ScriptFault;

/// How a run of the program ended.
#[derive(Drop)]
pub enum Status {
    /// The whole text was written. `ended` is the heap that has ended, whose history was run.
    Done { ended: Option<Ended> },
    /// The words of the command line aren't in the grammar. Nothing was read.
    Usage,
    /// The script, or the text of a table, has this fault first. Nothing was written. [`camlheap`](crate::camlheap) never answers
    /// `Script(ScriptFault::Memory)`: want of memory is `Memory`.
    Script(ScriptFault),
    /// The schedule of a replay isn't one: this line, counted from 1, is the first that isn't as it must be. Nothing was
    /// written.
    Schedule { line: u32 },
    /// The script can't be replayed. 1: it has a `major`. 2: it has none, and makes so many blocks that the pools might run
    /// short. Nothing was written.
    NotReplayable { why: u32 },
    /// A read failed. Nothing was written.
    ReadFault,
    /// A write failed. What was written is the front of what was to be written. `ended` is as in `Done`.
    WriteFault { ended: Option<Ended> },
    /// Memory ran out before the first byte was written.
    Memory,
}

/// The number with which the program ends.
pub fn status_number(status: &Status) -> u8
    ensures { result ≡ exit_number status.now }
{
    match status {
        Status::Done { .. } => 0,
        Status::Usage => 1,
        Status::Script(ScriptFault::Memory) | Status::Memory => 5,
        Status::Script(_) => 2,
        Status::ReadFault => 3,
        Status::WriteFault { .. } => 4,
        Status::Schedule { .. } => 6,
        Status::NotReplayable { .. } => 7,
    }
}

const USAGE: &[u8] =
    b"usage: camlheap run|replay|table [--domains N] [--minor W] [--pools P] | gen|load BASE N C\n";

// Puts what the fault line of a script says of a line: its number, and a text.
fn put_line(out: &mut [u8; 128], number: u32, text: &[u8]) -> usize
    requires { length text.now ≤ 32 }
    ensures end { result ≤ 64 }
    ensures front { take result out.new ≡ codes "script line " ++ decimal number ++ text.now }
    ensures rest { drop result out.new ≡ drop result out.old }
{
    let at = put(out, 0, b"script line ");
    let at = put_number(out, at, u64::from(number));
    put(out, at, text)
}

// Puts the fault line of a script.
fn put_fault(out: &mut [u8; 128], fault: &ScriptFault) -> usize
    ensures end { result ≤ 128 }
    ensures front { take result out.new ≡ line (fault_text fault.now) }
    ensures rest { drop result out.new ≡ drop result out.old }
{
    match fault {
        ScriptFault::Syntax { line } => put_line(out, *line, b": syntax\n"),
        ScriptFault::Order { line } => put_line(out, *line, b": section order\n"),
        ScriptFault::Range { line, which } => {
            let at = put_line(out, *line, b": number ");
            let at = put_number(out, at, u64::from(*which));
            put(out, at, b" out of range\n")
        }
        ScriptFault::TooLong { .. } => put(out, 0, b"script: more than 16777216 bytes\n"),
        ScriptFault::TooMany { line } => put_line(out, *line, b": too many commands\n"),
        ScriptFault::Spawn { line } => put_line(out, *line, b": spawn\n"),
        ScriptFault::Memory => put(out, 0, b"out of memory\n"),
    }
}

// Puts a text, a number and a line feed.
fn put_numbered(out: &mut [u8; 128], text: &[u8], number: u32) -> usize
    requires { length text.now ≤ 32 }
    ensures end { result ≤ 64 }
    ensures front { take result out.new ≡ line (text.now ++ decimal number) }
    ensures rest { drop result out.new ≡ drop result out.old }
{
    let at = put(out, 0, text);
    let at = put_number(out, at, u64::from(number));
    put(out, at, b"\n")
}

/// Puts the line for standard error, with its line feed, at the front of the buffer, and answers its length.
/// There is none, of length 0, for `Done`. The rest of the buffer stays as it was.
pub fn fault_line(status: &Status, out: &mut [u8; 128]) -> usize
    ensures fits { result ≤ 128 }
    ensures line { take result out.new ≡ line_of status.now }
    ensures text { out.new ≡ line_of status.now ++ drop result out.old }
{
    match status {
        Status::Done { .. } => 0,
        Status::Usage => put(out, 0, USAGE),
        Status::Script(fault) => put_fault(out, fault),
        Status::Schedule { line } => put_numbered(out, b"schedule line ", *line),
        Status::NotReplayable { why } => put_numbered(out, b"not replayable: ", *why),
        Status::ReadFault => put(out, 0, b"read fault\n"),
        Status::WriteFault { .. } => put(out, 0, b"write fault\n"),
        Status::Memory => put(out, 0, b"out of memory\n"),
    }
}
