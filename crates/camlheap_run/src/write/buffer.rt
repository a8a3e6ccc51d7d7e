//! Texts and numbers put into a buffer, one behind the other.
ghost use Rattle.std.specs.Prelude.{◌≡◌, ◌≤◌, ◌+◌, ◌++◌, take, drop, length, decimal};
ghost use Rattle.std.specs.Fmt.{signed_decimal};

use itoa::Buffer;

// Puts a text behind the first `at` bytes, and answers where it ends. What lies behind it stays as it was.
pub(crate) fn put(out: &mut [u8; 128], at: usize, text: &[u8]) -> usize
    requires { at + length text.now ≤ 128 }
    ensures end { result ≡ at + length text.now }
    ensures front { take result out.new ≡ take at out.old ++ text.now }
    ensures rest { drop result out.new ≡ drop result out.old }
{
    let end = at + text.len();
    out[at..end].copy_from_slice(text);
    end
}

// Puts a number in decimal behind the first `at` bytes, and answers where it ends. What lies behind it stays as it was.
pub(crate) fn put_number(out: &mut [u8; 128], at: usize, number: u64) -> usize
    requires { at + 20 ≤ 128 }
    ensures start { at ≤ result }
    ensures end { result ≤ at + 20 }
    ensures front { take result out.new ≡ take at out.old ++ decimal number }
    ensures rest { drop result out.new ≡ drop result out.old }
{
    let mut buffer = Buffer::new();
    put(out, at, buffer.format(number).as_bytes())
}

// The same with an integer, which may be negative.
pub(crate) fn put_integer(out: &mut [u8; 128], at: usize, value: i64) -> usize
    requires { at + 20 ≤ 128 }
    ensures start { at ≤ result }
    ensures end { result ≤ at + 20 }
    ensures front { take result out.new ≡ take at out.old ++ signed_decimal value }
    ensures rest { drop result out.new ≡ drop result out.old }
{
    let mut buffer = Buffer::new();
    put(out, at, buffer.format(value).as_bytes())
}
