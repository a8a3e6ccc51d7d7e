// The table of command forms, for the reader and the printer.
ghost use Rattle.std.specs.Prelude.{◌≡◌, ◌≤◌, length};
ghost use Rattle.text_script.specs.Forms.{form, word_of, made, byte as byte_of, short as short_of, wide as wide_of};

use crate::form::{Operand, Word};
use crate::version::Version;
use model_core::command::Command;

// An array of these words, and behind them those of the first version.
macro_rules! with_first_words {
    ($($word:ident),*) => {
        [
            $(Word::$word,)*
            Word::Int,
            Word::Move,
            Word::Drop,
            Word::Alloc,
            Word::AllocMaj,
            Word::Load,
            Word::Store,
            Word::Ephe,
            Word::SetKey,
            Word::UnsetKey,
            Word::GetKey,
            Word::CheckKey,
            Word::SetData,
            Word::UnsetData,
            Word::GetData,
            Word::CheckData,
            Word::Finalise,
            Word::FinaliseLast,
            Word::Poll,
            Word::Minor,
            Word::Major,
            Word::FullMajor,
        ]
    };
}

// The words of the grammar of each version. Each has an array of its own, so that the search goes over known words.
const FIRST_WORDS: [Word; 22] = with_first_words![];

const SECOND_WORDS: [Word; 24] = with_first_words![Raw, Cas];

const THIRD_WORDS: [Word; 28] = with_first_words![Raw, Cas, Spawn, Argument, Result, Join];

// The word that a row's line begins with.
pub(crate) fn text_of(word: Word) -> &'static [u8]
    ensures text { result.now ≡ (form word).text }
    ensures short { length result.now ≤ 13 }
{
    match word {
        Word::Int => b"int",
        Word::Move => b"move",
        Word::Drop => b"drop",
        Word::Alloc => b"alloc",
        Word::AllocMaj => b"allocmaj",
        Word::Load => b"load",
        Word::Store => b"store",
        Word::Raw => b"raw",
        Word::Cas => b"cas",
        Word::Ephe => b"ephe",
        Word::SetKey => b"set_key",
        Word::UnsetKey => b"unset_key",
        Word::GetKey => b"get_key",
        Word::CheckKey => b"check_key",
        Word::SetData => b"set_data",
        Word::UnsetData => b"unset_data",
        Word::GetData => b"get_data",
        Word::CheckData => b"check_data",
        Word::Finalise => b"finalise",
        Word::FinaliseLast => b"finalise_last",
        Word::Poll => b"poll",
        Word::Minor => b"minor",
        Word::Major => b"major",
        Word::FullMajor => b"full_major",
        Word::Spawn => b"spawn",
        Word::Argument => b"argument",
        Word::Result => b"result",
        Word::Join => b"join",
    }
}

// The kinds of the numbers of a row's line.
pub(crate) fn operands_of(word: Word) -> &'static [Operand]
    ensures { result.now ≡ (form word).operands }
{
    match word {
        Word::Int => &[Operand::Register, Operand::Integer],
        Word::Move => &[Operand::Register, Operand::Register],
        Word::Drop => &[Operand::Register],
        Word::Alloc => &[Operand::Register, Operand::Tag, Operand::FieldCount],
        Word::AllocMaj => &[Operand::Register, Operand::Tag, Operand::FieldCount],
        Word::Load => &[Operand::Register, Operand::Register, Operand::Index],
        Word::Store => &[Operand::Register, Operand::Index, Operand::Register],
        Word::Raw => &[Operand::Register, Operand::RawTag, Operand::FieldCount],
        Word::Cas => &[
            Operand::Register,
            Operand::Index,
            Operand::Register,
            Operand::Register,
        ],
        Word::Ephe => &[Operand::Register, Operand::KeyCount],
        Word::SetKey => &[Operand::Register, Operand::Index, Operand::Register],
        Word::UnsetKey => &[Operand::Register, Operand::Index],
        Word::GetKey => &[Operand::Register, Operand::Register, Operand::Index],
        Word::CheckKey => &[Operand::Register, Operand::Index],
        Word::SetData => &[Operand::Register, Operand::Register],
        Word::UnsetData => &[Operand::Register],
        Word::GetData => &[Operand::Register, Operand::Register],
        Word::CheckData => &[Operand::Register],
        Word::Finalise => &[
            Operand::Register,
            Operand::FinaliserNumber,
            Operand::Register,
        ],
        Word::FinaliseLast => &[Operand::Register, Operand::FinaliserNumber],
        Word::Poll => &[],
        Word::Minor => &[],
        Word::Major => &[],
        Word::FullMajor => &[],
        Word::Spawn => &[Operand::Section, Operand::Register],
        Word::Argument => &[Operand::Register],
        Word::Result => &[Operand::Register],
        Word::Join => &[Operand::Register, Operand::Section],
    }
}

// The row that a text is the word of, if it is one of the version, by all words of the version in order.
#[inline(never)]
pub(crate) fn search_word(version: Version, text: &[u8]) -> Option<Word>
    ensures { result ≡ word_of version text.now }
{
    match version {
        Version::One => FIRST_WORDS
            .iter()
            .copied()
            .find(|word| text_of(*word) == text),
        Version::Two => SECOND_WORDS
            .iter()
            .copied()
            .find(|word| text_of(*word) == text),
        Version::Three => THIRD_WORDS
            .iter()
            .copied()
            .find(|word| text_of(*word) == text),
    }
}

// The command of a row and its numbers, behind which others may stand.
#[inline(always)]
pub(crate) fn make(word: Word, numbers: &[i64; 4]) -> Command
    ensures { result ≡ made word numbers.now }
{
    let [a, b, c, d] = *numbers;
    match word {
        Word::Int => Command::PutInt {
            dst: byte(a),
            value: b,
        },
        Word::Move => Command::Copy {
            dst: byte(a),
            src: byte(b),
        },
        Word::Drop => Command::Forget { dst: byte(a) },
        Word::Alloc => Command::Alloc {
            dst: byte(a),
            tag: byte(b),
            fields: short(c),
        },
        Word::AllocMaj => Command::AllocMaj {
            dst: byte(a),
            tag: byte(b),
            fields: short(c),
        },
        Word::Load => Command::Load {
            dst: byte(a),
            src: byte(b),
            index: short(c),
        },
        Word::Store => Command::Store {
            block: byte(a),
            index: short(b),
            item: byte(c),
        },
        Word::Raw => Command::Raw {
            dst: byte(a),
            tag: byte(b),
            fields: short(c),
        },
        Word::Cas => Command::Cas {
            block: byte(a),
            index: short(b),
            expected: byte(c),
            item: byte(d),
        },
        Word::Ephe => Command::Ephe {
            dst: byte(a),
            keys: short(b),
        },
        Word::SetKey => Command::SetKey {
            ephe: byte(a),
            index: short(b),
            item: byte(c),
        },
        Word::UnsetKey => Command::UnsetKey {
            ephe: byte(a),
            index: short(b),
        },
        Word::GetKey => Command::GetKey {
            dst: byte(a),
            ephe: byte(b),
            index: short(c),
        },
        Word::CheckKey => Command::CheckKey {
            ephe: byte(a),
            index: short(b),
        },
        Word::SetData => Command::SetData {
            ephe: byte(a),
            item: byte(b),
        },
        Word::UnsetData => Command::UnsetData { ephe: byte(a) },
        Word::GetData => Command::GetData {
            dst: byte(a),
            ephe: byte(b),
        },
        Word::CheckData => Command::CheckData { ephe: byte(a) },
        Word::Finalise => Command::Finalise {
            item: byte(a),
            number: wide(b),
            dst: byte(c),
        },
        Word::FinaliseLast => Command::FinaliseLast {
            item: byte(a),
            number: wide(b),
        },
        Word::Poll => Command::Poll,
        Word::Minor => Command::Minor,
        Word::Major => Command::Major,
        Word::FullMajor => Command::FullMajor,
        Word::Spawn => Command::Spawn {
            section: wide(a),
            item: byte(b),
        },
        Word::Argument => Command::Argument { dst: byte(a) },
        Word::Result => Command::PutResult { item: byte(a) },
        Word::Join => Command::Join {
            dst: byte(a),
            section: wide(b),
        },
    }
}

// A number as a field of 8 bits holds it. One in its range stays as it is.
fn byte(z: i64) -> u8
    ensures { result ≡ byte_of z }
{
    z.unsigned_abs().min(255) as u8
}

fn short(z: i64) -> u16
    ensures { result ≡ short_of z }
{
    z.unsigned_abs().min(65_535) as u16
}

fn wide(z: i64) -> u32
    ensures { result ≡ wide_of z }
{
    z.unsigned_abs().min(4_294_967_295) as u32
}
