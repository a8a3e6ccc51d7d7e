//! Reading a schedule.
ghost use Rattle.std.specs.Prelude.{◌≡◌, ◌≤◌, ◌<◌, ◌++◌, ◌==◌, ℕ, nat_lt, is_some, codes, bytes_eq, length, Some, None, Err, IfOk, IfErr, if◌then◌else◌};
ghost use Rattle.std.specs.List.{slice_split};
ghost use Rattle.model_core.specs.Output.{line};
ghost use Rattle.text_script.specs.Schedule.Text.Spelling.{ReadsSpelled, Spells, IsUnlessMemory};
ghost use Rattle.text_script.specs.Schedule.Text.Faults.{item_of as item_said, wrong_from, first_wrong, IsFaultUnlessMemory};

use crate::decimals::natural_of;
use crate::schedule::text::fault::ScheduleFault;
use crate::schedule::text::schedule::Schedule;
use crate::split::split_once;
use model_traces::schedules::Item;
use std::alloc::Global;

// The greatest count of items of a schedule.
const MAX_ITEMS: usize = 200_000;

// The item that a line says, for a run with so many domains.
fn item_of(domains: u32, text: &[u8]) -> Option<Item>
    ensures { result ≡ item_said domains text.now }
{
    if text == b"collect".as_slice() {
        return Some(Item::Collect);
    }
    let (word, digits) = split_once(text, b' ')?;
    if word != b"turn".as_slice() {
        return None;
    }
    let number = natural_of(digits)?;
    if number < u64::from(domains) {
        Some(Item::Turn(number as u32))
    } else {
        None
    }
}

// The item of a line before which so many items stand: none, where there may be no more of them.
fn next_item(domains: u32, count: usize, text: &[u8]) -> Option<Item>
    ensures { result ≡ (if nat_lt count 200000 then item_said domains text.now else None) }
{
    if count < MAX_ITEMS {
        item_of(domains, text)
    } else {
        None
    }
}

fn is_end(text: &[u8]) -> bool
    ensures { result ≡ bytes_eq text.now (codes "end") }
{
    text == b"end".as_slice()
}

fn is_first_line(text: &[u8]) -> bool
    ensures { result ≡ bytes_eq text.now (codes "schedule 1") }
{
    text == b"schedule 1".as_slice()
}

// The items that stand behind the first line, and the place behind the line `end`.
fn read_items(
    alloc: Global,
    domains: u32,
    bytes: &[u8],
    behind: &[u8],
) -> Result<(Schedule, usize), ScheduleFault>
    requires { bytes.now ≡ line (codes "schedule 1") ++ behind.now }
    ensures found { IfOk result (λ r. Spells domains r.0 r.1 bytes.now) }
    ensures fault { IfErr result (λ e. IsFaultUnlessMemory e
        (wrong_from domains 0 (slice_split (λ b. b == 10) behind.now))) }
{
    let mut list = Vec::new(alloc);
    let mut rest = behind;
    'lines: while let Some((text, tail)) = split_once(rest, b'\n') {
        if is_end(text) {
            return Ok((Schedule { list }, bytes.len() - tail.len()));
        }
        let Some(item) = next_item(domains, list.len(), text) else {
            return Err(ScheduleFault::Line {
                line: list.len() as u32 + 2,
            });
        };
        if list.push(item).is_err() {
            return Err(ScheduleFault::Memory);
        }
        rest = tail;
    }
    Err(ScheduleFault::Line {
        line: list.len() as u32 + 2,
    })
}

// A schedule, or the first line that isn't one of a schedule.
fn schedule_or_fault(
    alloc: Global,
    domains: u32,
    bytes: &[u8],
) -> Result<(Schedule, usize), ScheduleFault>
    ensures found { IfOk result (λ r. Spells domains r.0 r.1 bytes.now) }
    ensures fault { IfErr result (λ e. IsFaultUnlessMemory e (first_wrong domains bytes.now)) }
{
    let Some((first, behind)) = split_once(bytes, b'\n') else {
        return Err(ScheduleFault::Line { line: 1 });
    };
    if !is_first_line(first) {
        return Err(ScheduleFault::Line { line: 1 });
    }
    read_items(alloc, domains, bytes, behind)
}

/// Reads a schedule for a run with so many domains, which stands in front of other bytes. Answers it
/// with the place of the first byte behind its last line.
///
/// A schedule is the line `schedule 1`, then at most 200,000 lines `turn D`, with D below the number of
/// domains, or `collect`, and then the line `end`. What is refused is told by the first line that isn't
/// as said. Where the bytes end before the line `end`, that is the line behind the last line feed.
pub fn read_schedule(
    alloc: Global,
    domains: u32,
    bytes: &[u8],
) -> Result<(Schedule, usize), ScheduleFault>
    requires { (1 ≤ domains) × (domains ≤ 8) }
    // What is read is spelled so, up to the place.
    ensures found { IfOk result (λ r. Spells domains r.0 r.1 bytes.now) }
    // What is spelled so is read, unless memory runs out.
    ensures only { ReadsSpelled domains bytes.now result }
    // A fault is the first line that is wrong, unless memory ran out.
    ensures fault { IfErr result (λ e. IsFaultUnlessMemory e (first_wrong domains bytes.now)) }
    // The first line that is wrong is answered, unless memory runs out.
    ensures refused { (k : ℕ) → first_wrong domains bytes.now ≡ Some k
        → IsUnlessMemory result (Err (ScheduleFault.Line k)) }
{
    schedule_or_fault(alloc, domains, bytes)
}
