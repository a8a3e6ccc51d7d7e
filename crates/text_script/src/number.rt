// Numbers in decimal, of any count of digits.
ghost use Rattle.std.specs.Prelude.{◌≡◌, ℕ, ℤ, List, ◌≤◌, ◌<◌, ◌+◌, ◌^◌, ◌-◌, pos, neg_ℤ, min, length, map, take, drop, false, Some, None, option_map, IfSome, ◌==◌, if◌then◌else◌};
ghost use Rattle.std.specs.Str.{all_ascii_digits};
ghost use Rattle.text_script.specs.Decimals.Natural.{value_on, natural};
ghost use Rattle.text_script.specs.Split.{begins_with, first_text, read_whole, numbers_behind};
ghost use Rattle.text_script.specs.Number.{number, clipped};

use crate::text::behind;

// The numbers behind a word, and where the next line begins.
#[derive(Clone, Copy)]
pub(crate) struct Row {
    pub(crate) numbers: [i64; 4],
    pub(crate) next: usize,
}

fn clip(n: u64) -> i64
    ensures { result ≡ pos (min n (2 ^ 63 - 1)) }
{
    n.min(i64::MAX as u64) as i64
}

// The number with a sign.
fn negative(n: u64) -> i64
    ensures { result ≡ neg_ℤ (pos (min n (2 ^ 63 - 1))) }
{
    -clip(n)
}

// The number that a first digit and those behind it are, and where they end. One that is too large for 64 bits is the
// greatest of them.
#[inline(always)]
fn digits_on(bytes: &[u8], at: usize, first: u8) -> (u64, usize)
    requires { at ≤ length bytes.now }
    ensures value { read_whole (at + length (first_text (drop at bytes.now))) (Some result)
        ≡ (if all_ascii_digits (first_text (drop at bytes.now)) then Some (min (value_on first (first_text (drop at bytes.now))) (2 ^ 64 - 1)) else None) }
    ensures start { at ≤ result.1 }
    ensures within { result.1 ≤ at + length (first_text (drop at bytes.now)) }
{
    let mut value = u64::from(first);
    let mut end = at;
    'digits: while end < bytes.len() && bytes[end].is_ascii_digit() {
        value = value
            .saturating_mul(10)
            .saturating_add(u64::from(bytes[end] - b'0'));
        end += 1;
    }
    (value, end)
}

// The number without a sign at a place, and where it ends. It is that of the text there, if it ends where the text does.
#[inline(always)]
fn natural_at(bytes: &[u8], at: usize) -> Option<(u64, usize)>
    ensures value { read_whole (at + length (first_text (drop at bytes.now))) result
        ≡ option_map (λ n. min n (2 ^ 64 - 1)) (natural (first_text (drop at bytes.now))) }
    ensures unsigned { IfSome result (λ p. begins_with 45 (drop at bytes.now) ≡ false) }
    ensures some { IfSome result (λ p. at < p.1) }
    ensures within { IfSome result (λ p. p.1 ≤ at + length (first_text (drop at bytes.now))) }
{
    if bytes.len() <= at || !bytes[at].is_ascii_digit() {
        return None;
    }
    let first = bytes[at] - b'0';
    if first == 0 {
        Some((0, at + 1))
    } else {
        Some(digits_on(bytes, at + 1, first))
    }
}

// The number with a sign at a place, and where it ends. It is that of the text there, if it ends where the text does.
#[inline(never)]
fn negative_at(bytes: &[u8], at: usize) -> Option<(i64, usize)>
    requires { natural (first_text (drop at bytes.now)) ≡ None }
    ensures value { read_whole (at + length (first_text (drop at bytes.now))) result
        ≡ option_map clipped (number (first_text (drop at bytes.now))) }
    ensures some { IfSome result (λ p. at < p.1) }
    ensures within { IfSome result (λ p. p.1 ≤ at + length (first_text (drop at bytes.now))) }
{
    match behind(bytes, at, b'-') {
        None => None,
        Some(digits) => match natural_at(bytes, digits) {
            None | Some((0, _)) => None,
            Some((magnitude, end)) => Some((negative(magnitude), end)),
        },
    }
}

// The digit at a place, where no other stands behind it.
#[inline(always)]
#[tactic(auto, using(crate::proofs::DigitLemmas::lone_read, crate::proofs::DigitLemmas::lone_within))]
fn lone_digit(bytes: &[u8], at: usize) -> Option<u8>
    ensures value { IfSome result (λ d. read_whole (at + length (first_text (drop at bytes.now))) (Some (pos d, at + 1))
        ≡ option_map clipped (number (first_text (drop at bytes.now)))) }
    ensures within { IfSome result (λ d. at + 1 ≤ at + length (first_text (drop at bytes.now))) }
{
    if bytes.len() <= at || bytes.len() <= at + 1 {
        return None;
    }
    if bytes[at].is_ascii_digit() && !bytes[at + 1].is_ascii_digit() {
        Some(bytes[at] - b'0')
    } else {
        None
    }
}

// The number at a place, and where it ends. It is that of the text there, if it ends where the text does.
#[inline(always)]
fn number_at(bytes: &[u8], at: usize) -> Option<(i64, usize)>
    ensures value { read_whole (at + length (first_text (drop at bytes.now))) result
        ≡ option_map clipped (number (first_text (drop at bytes.now))) }
    ensures some { IfSome result (λ p. at < p.1) }
    ensures within { IfSome result (λ p. p.1 ≤ at + length (first_text (drop at bytes.now))) }
{
    if let Some(digit) = lone_digit(bytes, at) {
        return Some((i64::from(digit), at + 1));
    }
    match natural_at(bytes, at) {
        Some((magnitude, end)) => Some((clip(magnitude), end)),
        None => negative_at(bytes, at),
    }
}

// The numbers behind a word that ends at a place: exactly so many, each behind a space, and a line feed behind the last.
#[inline(always)]
pub(crate) fn row_at(bytes: &[u8], at: usize, count: usize) -> Option<Row>
    requires { count ≤ 4 }
    ensures value { option_map {U = List ℤ × List ℕ} (λ r. (take count r.numbers, drop r.next bytes.now)) result
        ≡ option_map (λ p. (map clipped p.0, p.1)) (numbers_behind count (drop at bytes.now)) }
    ensures four { IfSome result (λ r. length r.numbers ≡ 4) }
    ensures further { IfSome result (λ r. at < r.next) }
    ensures within { IfSome result (λ r. r.next ≤ length bytes.now) }
{
    let mut numbers = [0; 4];
    let mut end = at;
    'numbers: for i in 0..count {
        let (number, behind_it) = number_at(bytes, behind(bytes, end, b' ')?)?;
        numbers[i] = number;
        end = behind_it;
    }
    let next = behind(bytes, end, b'\n')?;
    Some(Row { numbers, next })
}
