//! Natural numbers in decimal.
ghost use Rattle.std.specs.Prelude.{◌≡◌, ◌^◌, ◌-◌, min, option_map, Some, None, if◌then◌else◌};
ghost use Rattle.std.specs.Str.{all_ascii_digits};
ghost use Rattle.text_script.specs.Decimals.Natural.{value_on, natural};

// The number that digits are. One that is too large for 64 bits is the greatest of them.
fn digits_of(bytes: &[u8]) -> Option<u64>
    ensures { result ≡ (if all_ascii_digits bytes.now
        then Some (min (value_on 0 bytes.now) (2 ^ 64 - 1)) else None) }
{
    let mut sum: u64 = 0;
    for byte in bytes {
        if !byte.is_ascii_digit() {
            return None;
        }
        sum = sum
            .saturating_mul(10)
            .saturating_add(u64::from(*byte - b'0'));
    }
    Some(sum)
}

/// The number that bytes are: decimal digits without a sign, and without a leading zero but for the
/// number 0 itself. `None` exactly where they are no number. There may be any count of digits, and a
/// number that is too large for 64 bits is answered as the greatest of them.
pub fn natural_of(bytes: &[u8]) -> Option<u64>
    ensures { result ≡ option_map (λ n. min n (2 ^ 64 - 1)) (natural bytes.now) }
{
    match bytes {
        [] => None,
        [b'0', _, ..] => None,
        _ => digits_of(bytes),
    }
}
