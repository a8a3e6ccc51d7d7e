// The table of lines, for the reader.
ghost use Rattle.std.specs.Prelude.{◌≡◌, ◌≤◌, ◌<◌, pos, length, slice_index_or, IfSome};
ghost use Rattle.table_text.specs.Forms.{form, word_of, made, byte as byte_of, fits as fits_kind};
ghost use Rattle.table_text.specs.Faults.{first_out_of_range as first_out_of_range_of};

use crate::line::TableLine;
use crate::word::{Operand, Word};

// The words in the order of the table.
const WORDS: [Word; 9] = [
    Word::Key,
    Word::Forget,
    Word::Put,
    Word::Get,
    Word::Del,
    Word::SetWeak,
    Word::GetWeak,
    Word::Count,
    Word::FullMajor,
];

// The word that a row's line begins with.
fn text_of(word: Word) -> &'static [u8]
    ensures { result.now ≡ (form word).text }
{
    match word {
        Word::Key => b"key",
        Word::Forget => b"forget",
        Word::Put => b"put",
        Word::Get => b"get",
        Word::Del => b"del",
        Word::SetWeak => b"wset",
        Word::GetWeak => b"wget",
        Word::Count => b"count",
        Word::FullMajor => b"full_major",
    }
}

// The row that a text is the word of, if it is one.
pub(crate) fn find_word(text: &[u8]) -> Option<Word>
    ensures { result ≡ word_of text.now }
{
    WORDS.iter().copied().find(|word| text_of(*word) == text)
}

// The kinds of the numbers of a row's line.
pub(crate) fn operands_of(word: Word) -> &'static [Operand]
    ensures operands { result.now ≡ (form word).operands }
    ensures few { length result.now ≤ 2 }
{
    match word {
        Word::Key | Word::Forget | Word::Get | Word::Del => &[Operand::Register],
        Word::Put => &[Operand::Register, Operand::Integer],
        Word::SetWeak => &[Operand::Slot, Operand::Register],
        Word::GetWeak => &[Operand::Register, Operand::Slot],
        Word::Count | Word::FullMajor => &[],
    }
}

// Whether a number is in the range of its kind.
fn fits(kind: Operand, number: i64) -> bool
    ensures { result ≡ fits_kind kind number }
{
    let (least, greatest) = match kind {
        Operand::Register => (1, 5),
        Operand::Slot => (0, 15),
        Operand::Integer => (-4_611_686_018_427_387_904, 4_611_686_018_427_387_903),
    };
    least <= number && number <= greatest
}

// The place of the first number outside the range of its operand, counted from 1.
pub(crate) fn first_out_of_range(kinds: &[Operand], numbers: &[i64]) -> Option<u32>
    requires few { length kinds.now ≤ 2 }
    requires counted { length numbers.now ≡ length kinds.now }
    ensures { result ≡ first_out_of_range_of 1 kinds.now numbers.now }
{
    for (at, kind) in kinds.iter().enumerate() {
        if !fits(*kind, numbers[at]) {
            return Some(at as u32 + 1);
        }
    }
    None
}

// The number at a place, and 0 where there are fewer.
pub(crate) fn number_at(numbers: &[i64], at: usize) -> i64
    ensures { result ≡ slice_index_or numbers.now at (pos 0) }
{
    numbers.get(at).copied().unwrap_or(0)
}

// A register or a slot. One in its range stays as it is.
fn byte(number: i64) -> u8
    ensures { result ≡ byte_of number }
{
    number.unsigned_abs().min(255) as u8
}

// The line of a row and its numbers.
pub(crate) fn make(word: Word, numbers: &[i64]) -> TableLine
    ensures { result ≡ made word numbers.now }
{
    let a = number_at(numbers, 0);
    let b = number_at(numbers, 1);
    match word {
        Word::Key => TableLine::Key { reg: byte(a) },
        Word::Forget => TableLine::Forget { reg: byte(a) },
        Word::Put => TableLine::Put {
            reg: byte(a),
            value: b,
        },
        Word::Get => TableLine::Get { reg: byte(a) },
        Word::Del => TableLine::Del { reg: byte(a) },
        Word::SetWeak => TableLine::SetWeak {
            slot: byte(a),
            reg: byte(b),
        },
        Word::GetWeak => TableLine::GetWeak {
            dst: byte(a),
            slot: byte(b),
        },
        Word::Count => TableLine::Count,
        Word::FullMajor => TableLine::FullMajor,
    }
}
