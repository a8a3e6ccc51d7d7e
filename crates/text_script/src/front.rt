// The front of a line that is being printed.
ghost use Rattle.std.specs.Prelude.{◌≡◌, ◌≤◌, ◌+◌, ◌++◌, length, take, drop, decimal};
ghost use Rattle.std.specs.Fmt.{signed_decimal};
ghost use Rattle.model_core.specs.Output.{line};

use itoa::write_digits;

/// The room for a line of text.
pub type Line = [u8; 64];

// Puts a text behind the first `at` bytes, and answers where it ends. What lies behind it stays as it was.
pub(crate) fn put(out: &mut Line, at: usize, text: &[u8]) -> usize
    requires { at + length text.now ≤ 64 }
    ensures end { result ≡ at + length text.now }
    ensures front { take result out.new ≡ take at out.old ++ text.now }
    ensures rest { drop result out.new ≡ drop result out.old }
{
    let end = at + text.len();
    out[at..end].copy_from_slice(text);
    end
}

// How many digits a number has.
fn digits(n: u64) -> usize
    ensures { result ≡ length (decimal n) }
{
    match n.checked_ilog10() {
        Some(power) => power as usize + 1,
        None => 1,
    }
}

// Puts a number in decimal behind the first `at` bytes, and answers where it ends. What lies behind it stays as it was.
fn put_digits(out: &mut Line, at: usize, n: u64) -> usize
    requires { at + length (decimal n) ≤ 64 }
    ensures end { result ≡ at + length (decimal n) }
    ensures front { take result out.new ≡ take at out.old ++ decimal n }
    ensures rest { drop result out.new ≡ drop result out.old }
{
    let end = at + digits(n);
    write_digits(n, out, end);
    end
}

// Puts a text, and behind it a number, behind the first `at` bytes, and answers where it ends. What lies behind it stays
// as it was.
#[inline(always)]
#[tactic(auto, using(crate::proofs::FrontLemmas::same_further))]
pub(crate) fn put_number(out: &mut Line, at: usize, text: &[u8], n: u64) -> usize
    requires { at + length text.now + length (decimal n) ≤ 64 }
    ensures end { result ≡ at + length text.now + length (decimal n) }
    ensures front { take result out.new ≡ take at out.old ++ text.now ++ decimal n }
    ensures rest { drop result out.new ≡ drop result out.old }
{
    let at = put(out, at, text);
    put_digits(out, at, n)
}

// The same of a number that may be negative.
#[inline(always)]
#[tactic(auto, using(crate::proofs::FrontLemmas::same_further))]
pub(crate) fn put_integer(out: &mut Line, at: usize, text: &[u8], n: i64) -> usize
    requires { at + length text.now + length (signed_decimal n) ≤ 64 }
    ensures end { result ≡ at + length text.now + length (signed_decimal n) }
    ensures front { take result out.new ≡ take at out.old ++ text.now ++ signed_decimal n }
    ensures rest { drop result out.new ≡ drop result out.old }
{
    if n < 0 {
        let at = put(out, at, text);
        put_number(out, at, b"-", n.unsigned_abs())
    } else {
        put_number(out, at, text, n.unsigned_abs())
    }
}

// Puts a line feed behind the first `at` bytes, and answers how long the line is. What lies behind it stays as it was.
pub(crate) fn end_line(out: &mut Line, at: usize) -> usize
    requires { at ≤ 63 }
    ensures length { result ≡ length (line (take at out.old)) }
    ensures fits { result ≡ at + 1 }
    ensures text { out.new ≡ line (take at out.old) ++ drop result out.old }
{
    put(out, at, b"\n")
}
