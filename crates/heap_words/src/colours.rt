//! The meanings of the three colour numbers.
ghost use Rattle.std.specs.Prelude.{◌≡◌};
ghost use Rattle.heap_words.specs.ColourWords.{colours_word, IsPermutation, rotated};
ghost use Rattle.heap_words.specs.Unpacked.{IsWordOf, ReadsAs, Unpacks};

/// Which of the numbers 0, 1 and 2 in a head means marked, unmarked and garbage.
///
/// At the end of a mark and sweep cycle the meanings rotate, and no head is rewritten
/// ("Retrofitting Parallelism onto OCaml", section 3.2).
#[derive(Clone, Copy, Debug, PartialEq, Eq)]
pub struct Colours {
    pub marked: u8,
    pub unmarked: u8,
    pub garbage: u8,
}

/// The meanings in the next cycle: what was garbage, and is by then unused, is marked, what was
/// marked is unmarked, and what was unmarked is garbage.
pub fn rotate(colours: Colours) -> Colours
    ensures { result ≡ rotated colours }
{
    Colours {
        marked: colours.garbage,
        unmarked: colours.marked,
        garbage: colours.unmarked,
    }
}

/// The word of the colours: `marked + 4 * unmarked + 16 * garbage`.
pub fn pack_colours(colours: Colours) -> u64
    requires { IsPermutation colours }
    ensures { result ≡ colours_word colours }
{
    u64::from(colours.marked) + 4 * u64::from(colours.unmarked) + 16 * u64::from(colours.garbage)
}

/// The colours whose word this is. `None` exactly where no three different colours have it.
pub fn unpack_colours(word: u64) -> Option<Colours>
    ensures { Unpacks IsPermutation colours_word word result }
{
    let marked = (word % 4) as u8;
    let unmarked = (word / 4 % 4) as u8;
    let garbage = (word / 16 % 4) as u8;
    let in_range = marked < 3 && unmarked < 3 && garbage < 3;
    let distinct = marked != unmarked && unmarked != garbage && garbage != marked;
    if word < 64 && in_range && distinct {
        Some(Colours {
            marked,
            unmarked,
            garbage,
        })
    } else {
        None
    }
}

/// The colours whose word this is, where some have it: of a word that is known to be theirs nothing
/// is tested.
#[inline(always)]
pub fn read_colours(word: u64) -> Colours
    requires known { IsWordOf IsPermutation colours_word word }
    ensures reads { ReadsAs IsPermutation colours_word word result }
{
    Colours {
        marked: (word % 4) as u8,
        unmarked: (word / 4 % 4) as u8,
        garbage: (word / 16 % 4) as u8,
    }
}
