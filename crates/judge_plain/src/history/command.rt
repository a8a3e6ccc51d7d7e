//! Commands that are the same.
ghost use Rattle.std.specs.Prelude.{◌≡◌, ◌↔◌, IsTrue, pos};
ghost use Rattle.text_script.specs.declared.form.Word as declared_word;
ghost use Rattle.judge_plain.specs.History.Rows.{row_of};

use model_core::command::Command;
use text_script::form::Word;

/// A command as its word and its numbers. The integer of `int` stands apart. A number that a command hasn't is 0.
#[derive(Clone, Copy)]
pub(crate) struct Row {
    pub word: Word,
    pub value: i64,
    pub a: u32,
    pub b: u32,
    pub c: u32,
    pub d: u32,
}

// A row without an integer.
fn plain_row(word: Word, a: u32, b: u32, c: u32, d: u32) -> Row
    ensures { result ≡ record { word = word; value = pos 0; a = a; b = b; c = c; d = d } }
{
    Row {
        word,
        value: 0,
        a,
        b,
        c,
        d,
    }
}

// The row of a register.
fn one(word: Word, a: u8) -> Row
    ensures { result ≡ record { word = word; value = pos 0; a = a; b = 0; c = 0; d = 0 } }
{
    plain_row(word, u32::from(a), 0, 0, 0)
}

// The row of two registers.
fn two(word: Word, a: u8, b: u8) -> Row
    ensures { result ≡ record { word = word; value = pos 0; a = a; b = b; c = 0; d = 0 } }
{
    plain_row(word, u32::from(a), u32::from(b), 0, 0)
}

// The row of a register and a count or a place.
fn placed(word: Word, a: u8, b: u16) -> Row
    ensures { result ≡ record { word = word; value = pos 0; a = a; b = b; c = 0; d = 0 } }
{
    plain_row(word, u32::from(a), u32::from(b), 0, 0)
}

// The row of a register, a small number and a count or a place.
fn counted(word: Word, a: u8, b: u8, c: u16) -> Row
    ensures { result ≡ record { word = word; value = pos 0; a = a; b = b; c = c; d = 0 } }
{
    plain_row(word, u32::from(a), u32::from(b), u32::from(c), 0)
}

// The row of a register, a place and a register.
fn stored(word: Word, a: u8, b: u16, c: u8) -> Row
    ensures { result ≡ record { word = word; value = pos 0; a = a; b = b; c = c; d = 0 } }
{
    plain_row(word, u32::from(a), u32::from(b), u32::from(c), 0)
}

// The row of `int`.
fn integer(a: u8, value: i64) -> Row
    ensures { result ≡ record { word = Word.Int; value = value; a = a; b = 0; c = 0; d = 0 } }
{
    Row {
        value,
        ..one(Word::Int, a)
    }
}

// The row of `cas`.
fn exchanged(a: u8, b: u16, c: u8, d: u8) -> Row
    ensures { result ≡ record { word = Word.Cas; value = pos 0; a = a; b = b; c = c; d = d } }
{
    plain_row(
        Word::Cas,
        u32::from(a),
        u32::from(b),
        u32::from(c),
        u32::from(d),
    )
}

// A command as a row.
fn row_of_command(command: Command) -> Row
    ensures { result ≡ row_of command }
{
    match command {
        Command::PutInt { dst, value } => integer(dst, value),
        Command::Copy { dst, src } => two(Word::Move, dst, src),
        Command::Forget { dst } => one(Word::Drop, dst),
        Command::Alloc { dst, tag, fields } => counted(Word::Alloc, dst, tag, fields),
        Command::AllocMaj { dst, tag, fields } => counted(Word::AllocMaj, dst, tag, fields),
        Command::Load { dst, src, index } => counted(Word::Load, dst, src, index),
        Command::Store { block, index, item } => stored(Word::Store, block, index, item),
        Command::Raw { dst, tag, fields } => counted(Word::Raw, dst, tag, fields),
        Command::Cas {
            block: a,
            index,
            expected,
            item,
        } => exchanged(a, index, expected, item),
        Command::Ephe { dst, keys } => placed(Word::Ephe, dst, keys),
        Command::SetKey { ephe, index, item } => stored(Word::SetKey, ephe, index, item),
        Command::UnsetKey { ephe, index } => placed(Word::UnsetKey, ephe, index),
        Command::GetKey { dst, ephe, index } => counted(Word::GetKey, dst, ephe, index),
        Command::CheckKey { ephe, index } => placed(Word::CheckKey, ephe, index),
        Command::SetData { ephe, item } => two(Word::SetData, ephe, item),
        Command::UnsetData { ephe } => one(Word::UnsetData, ephe),
        Command::GetData { dst, ephe } => two(Word::GetData, dst, ephe),
        Command::CheckData { ephe } => one(Word::CheckData, ephe),
        Command::Finalise { item, number, dst } => {
            plain_row(Word::Finalise, u32::from(item), number, u32::from(dst), 0)
        }
        Command::FinaliseLast { item, number } => {
            plain_row(Word::FinaliseLast, u32::from(item), number, 0, 0)
        }
        Command::Poll => plain_row(Word::Poll, 0, 0, 0, 0),
        Command::Minor => plain_row(Word::Minor, 0, 0, 0, 0),
        Command::Major => plain_row(Word::Major, 0, 0, 0, 0),
        Command::FullMajor => plain_row(Word::FullMajor, 0, 0, 0, 0),
        Command::Spawn { section, item } => plain_row(Word::Spawn, section, u32::from(item), 0, 0),
        Command::Argument { dst } => one(Word::Argument, dst),
        Command::PutResult { item } => one(Word::Result, item),
        Command::Join { dst, section } => plain_row(Word::Join, u32::from(dst), section, 0, 0),
    }
}

// Whether two rows are the same.
#[tactic(auto, using(crate::proofs::OfHistory::RowLemmas::same_parts))]
fn same_rows(x: Row, y: Row) -> bool
    ensures { IsTrue result ↔ (x ≡ y) }
{
    x.word == y.word && x.value == y.value && x.a == y.a && x.b == y.b && x.c == y.c && x.d == y.d
}

/// Whether two commands are the same.
pub fn same_command(x: Command, y: Command) -> bool
    ensures { IsTrue result ↔ (x ≡ y) }
{
    same_rows(row_of_command(x), row_of_command(y))
}
