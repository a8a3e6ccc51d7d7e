// Numbers of a line.
ghost use Rattle.std.specs.Prelude.{◌≡◌, ◌≤◌, ◌^◌, ◌-◌, pos, min, length, map, option_map, IfSome};
ghost use Rattle.table_text.specs.Faults.{texts_behind};
ghost use Rattle.text_script.specs.Number.{number, counted_numbers, clipped};

use crate::split::first_text;
use arrayvec::ArrayVec;
use text_script::decimals::natural_of;

fn clip(n: u64) -> i64
    ensures { result ≡ pos (min n (2 ^ 63 - 1)) }
{
    n.min(i64::MAX as u64) as i64
}

// The number that a text is. One that is too large for 64 bits is the nearest that isn't.
fn number_of(text: &[u8]) -> Option<i64>
    ensures { result ≡ option_map clipped (number text.now) }
{
    match text {
        [b'-', digits @ ..] => match natural_of(digits) {
            None | Some(0) => None,
            Some(magnitude) => Some(-clip(magnitude)),
        },
        _ => match natural_of(text) {
            None => None,
            Some(magnitude) => Some(clip(magnitude)),
        },
    }
}

// The numbers behind a word: exactly so many.
pub(crate) fn numbers_of(mut rest: Option<&[u8]>, count: usize) -> Option<ArrayVec<i64, 2>>
    requires { count ≤ 2 }
    ensures counted { IfSome result (λ v. length v.items ≡ count) }
    ensures value { option_map (λ v. v.items) result
        ≡ option_map (map clipped) (counted_numbers count (texts_behind (option_map (λ r. r.now) rest.entry))) }
{
    let mut numbers = ArrayVec::new();
    'texts: for _ in 0..count {
        let (text, tail) = first_text(rest?);
        let Some(number) = number_of(text) else {
            return None;
        };
        numbers.push(number);
        rest = tail;
    }
    if rest.is_some() { None } else { Some(numbers) }
}
