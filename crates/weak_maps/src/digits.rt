//! The way to a key: the digits of its number.
ghost use Rattle.std.specs.Prelude.{◌≡◌, ◌≤◌, ◌<◌, ◌%◌, ◌^◌};
ghost use Rattle.weak_maps.specs.Cleans.{width_of};
ghost use Rattle.weak_maps.specs.Puts.{rest_of};
ghost use Rattle.weak_laws.specs.Maps.Tries.{node_width, number_of as number_in, root_width};

use model_core::label::Label;

/// The number of a label in a heap of so many domains.
pub fn number_of(domains: u32, key: &Label) -> u64
    requires few { domains ≤ 8 }
    ensures number { result ≡ number_in domains key.now }
{
    u64::from(key.serial) * u64::from(domains) + u64::from(key.domain)
}

/// The first digit, which chooses a field of the root.
pub fn root_index(number: u64) -> u16
    ensures { result ≡ number % root_width }
{
    (number % 512) as u16
}

/// The lowest digit of what is left, which chooses a field of a block below.
pub fn node_index(rest: u64) -> u16
    ensures { result ≡ rest % node_width }
{
    (rest % 32) as u16
}

/// What is left of a number below its first digit and so many others.
pub fn rest_below(number: u64, level: u8) -> u64
    ensures { result ≡ rest_of number level }
{
    let mut rest = number / 512;
    'levels: for _ in 0..level {
        rest /= 32;
    }
    rest
}

/// How many fields a block has below which there may be so many blocks in a row.
pub fn width_of(left: u8) -> u16
    ensures { result ≡ width_of left }
{
    if left == 6 { 512 } else { 32 }
}

/// The serial of a label is a number of 32 bits.
pub fn serial_of(key: &Label) -> u32
    ensures serial { result ≡ key.now.serial }
    ensures range { key.now.serial < 2 ^ 32 }
{
    key.serial
}
