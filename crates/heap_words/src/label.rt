//! The label word of a block.
ghost use Rattle.std.specs.Prelude.{◌≡◌, ◌<◌};
ghost use Rattle.heap_words.specs.Labels.{IsPackableLabel, label_word, label_word_of};
ghost use Rattle.heap_words.specs.Unpacked.{IsWordOf, ReadsAs, Unpacks};

/// The word of the label of the `serial`-th block of `domain`: `serial * 8 + domain`.
pub fn pack_label(domain: u32, serial: u32) -> u64
    requires { domain < 8 }
    ensures { result ≡ label_word domain serial }
{
    u64::from(serial) * 8 + u64::from(domain)
}

/// The domain and the serial whose label has this word. `None` exactly where no label has it.
pub fn unpack_label(word: u64) -> Option<(u32, u32)>
    ensures { Unpacks IsPackableLabel label_word_of word result }
{
    if word / 8 < 1 << 32 {
        Some(((word % 8) as u32, (word / 8) as u32))
    } else {
        None
    }
}

/// The domain and the serial whose label has this word, where one has it.
#[inline(always)]
pub fn read_label(word: u64) -> (u32, u32)
    requires known { IsWordOf IsPackableLabel label_word_of word }
    ensures reads { ReadsAs IsPackableLabel label_word_of word result }
{
    ((word % 8) as u32, (word / 8) as u32)
}
