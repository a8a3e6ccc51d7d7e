//! Numbers on the command line.
ghost use Rattle.std.specs.Prelude.{◌≡◌};
ghost use Rattle.text_script.specs.Words.Numbers.{option_number};

use crate::decimals::natural_of;

// The number that a text writes, where it is below 2^32. No number that large is in a range.
pub(crate) fn number(text: &str) -> Option<u32>
    ensures { result ≡ option_number text.now }
{
    u32::try_from(natural_of(text.as_bytes())?).ok()
}
