// A line by its word and its numbers.
ghost use Rattle.std.specs.Prelude.{◌≡◌, length, IfSome, IfNone, IfOk, IfErr, Some, None};
ghost use Rattle.table_text.specs.Forms.{form, made};
ghost use Rattle.table_text.specs.Faults.{says, neither, line_shape, fault_of_shape, SaysRow};

use crate::form::{find_word, first_out_of_range, make, operands_of};
use crate::line::TableLine;
use crate::number::numbers_of;
use crate::split::first_text;
use crate::word::Word;
use arrayvec::ArrayVec;
use text_script::ScriptFault;

// The word of a line and its numbers, if it has its count of them.
pub(crate) fn row_of(text: &[u8]) -> Option<(Word, ArrayVec<i64, 2>)>
    ensures row { IfSome result (λ p. SaysRow text.now p.0 p.1.items) }
    ensures counted { IfSome result (λ p. length p.1.items ≡ length (form p.0).operands) }
    ensures none { IfNone result (line_shape text.now ≡ neither) }
{
    let (first, rest) = first_text(text);
    let word = find_word(first)?;
    let numbers = numbers_of(rest, operands_of(word).len())?;
    Some((word, numbers))
}

// The line of a row, unless so many lines stand before it or a number is out of its range.
pub(crate) fn line_of_row(
    word: Word,
    numbers: &[i64],
    most: u32,
    line: u32,
    before: u32,
) -> Result<TableLine, ScriptFault>
    requires { length numbers.now ≡ length (form word).operands }
    ensures made { IfOk result (λ l. l ≡ made word numbers.now) }
    ensures fine { IfOk result (λ _. fault_of_shape most line before (says word numbers.now) ≡ None) }
    ensures fault { IfErr result (λ e. fault_of_shape most line before (says word numbers.now) ≡ Some e) }
{
    if most <= before {
        return Err(ScriptFault::TooMany { line });
    }
    match first_out_of_range(operands_of(word), numbers) {
        Some(which) => Err(ScriptFault::Range { line, which }),
        None => Ok(make(word, numbers)),
    }
}
