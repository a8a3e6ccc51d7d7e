//! The summary of a run: a line of figures for each domain.
ghost use Rattle.std.specs.Prelude.{◌≡◌, ◌≤◌, ◌+◌, ◌++◌, take, length, decimal, flat_map};
ghost use Rattle.model_core.specs.Output.{ints_of, int_sum};
ghost use Rattle.text_ends.specs.Faults.{HasCause};
ghost use Rattle.text_ends.specs.Writing.{Writes};
ghost use Rattle.camlheap_run.specs.Writing.{run_summary, sum_with};

use crate::write::buffer::{put, put_number};
use model_core::reply::Reply;
use run_turns::DomainRun;
use text_ends::{Failed, Sink, write_all};

// The number by which sums are reduced.
const MODULUS: i64 = 1_000_003;

// The integers among replies: how many there are, and their sum by the modulus.
#[derive(Clone, Copy)]
struct Tally {
    ints: u64,
    sum: u64,
}

// The sum with one more integer.
fn added(sum: u64, value: i64) -> u64
    requires { sum ≤ 1000002 }
    ensures { result ≡ sum_with sum value }
{
    (sum + value.rem_euclid(MODULUS) as u64) % MODULUS as u64
}

// Counts and adds up the integers among replies.
fn count_ints(replies: &[Reply]) -> Tally
    ensures ints { result.ints ≡ length (flat_map ints_of replies.now) }
    ensures sum { result.sum ≡ int_sum (flat_map ints_of replies.now) }
{
    let mut tally = Tally { ints: 0, sum: 0 };
    'replies: for reply in replies {
        if let Reply::Int(value) = *reply {
            tally.ints += 1;
            tally.sum = added(tally.sum, value);
        }
    }
    tally
}

// Puts a text, and a number behind it, behind the first `at` bytes, and answers where it ends.
fn put_figure(out: &mut [u8; 128], at: usize, text: &[u8], number: u64) -> usize
    requires { at + length text.now + 20 ≤ 128 }
    ensures end { result ≤ at + length text.now + 20 }
    ensures front { take result out.new ≡ take at out.old ++ (text.now ++ decimal number) }
{
    let at = put(out, at, text);
    put_number(out, at, number)
}

// Puts the summary line of a run at the front of the buffer, and answers its length.
fn put_summary(out: &mut [u8; 128], run: &DomainRun) -> usize
    ensures end { result ≤ 128 }
    ensures front { take result out.new ≡ run_summary run.now }
{
    let tally = count_ints(run.replies());
    let at = put_figure(out, 0, b"domain ", u64::from(run.domain().number()));
    let at = put_figure(out, at, b" commands ", run.next() as u64);
    let at = put_figure(out, at, b" ints ", tally.ints);
    let at = put_figure(out, at, b" sum ", tally.sum);
    put(out, at, b"\n")
}

// Writes the summary line of a run.
pub(crate) fn write_summary<K: Sink>(out: &mut K, run: &DomainRun) -> Result<(), Failed>
    ensures cause { HasCause (K.faults out.old) (K.faults out.new) result }
    ensures bytes { Writes (K.written out.old) (K.written out.new) result (run_summary run.now) }
{
    let mut text = [0; 128];
    let length = put_summary(&mut text, run);
    write_all(out, &text[..length])
}
