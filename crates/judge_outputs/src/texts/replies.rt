//! Replies as an output has them.
ghost use Rattle.std.specs.Prelude.{◌≡◌, ◌++◌, IfOk, OnOk, decimal};
ghost use Rattle.std.specs.Fmt.{signed_decimal};
ghost use Rattle.model_core.specs.Output.{line};
ghost use Rattle.table_text.specs.Machine.Texts.{line_reply_text, replies_text};

use itoa::Buffer;
use std::alloc::{AllocError, Global};
use table_text::machine::LineReply;
use text_script::decimals::natural_of;

// The number that a text is, as far as it isn't too large.
fn number_of(text: &[u8]) -> Option<i64> {
    match text {
        [b'-', digits @ ..] => match i64::try_from(natural_of(digits)?) {
            Ok(magnitude) => magnitude.checked_neg(),
            Err(_) => None,
        },
        digits => i64::try_from(natural_of(digits)?).ok(),
    }
}

/// The reply that a line without its line feed tells, if it tells one.
pub(crate) fn reply_of(text: &[u8]) -> Option<LineReply> {
    if let Some(number) = text.strip_prefix(b"int ") {
        return number_of(number).map(LineReply::Number);
    }
    if let Some(number) = text.strip_prefix(b"count ") {
        return u32::try_from(natural_of(number)?)
            .ok()
            .map(LineReply::Counted);
    }
    match text {
        b"ok" => Some(LineReply::Done),
        b"full" => Some(LineReply::Full),
        b"type" => Some(LineReply::BadType),
        b"none" => Some(LineReply::Empty),
        b"yes" => Some(LineReply::Yes),
        _ => None,
    }
}

/// The replies that the lines of an output tell, up to the first that tells none.
pub(crate) fn read_replies(alloc: Global, output: &[u8]) -> Result<Vec<LineReply>, AllocError> {
    let mut replies = Vec::new(alloc);
    for line in output.split(|byte| *byte == b'\n') {
        let Some(reply) = reply_of(line) else {
            return Ok(replies);
        };
        replies.push(reply)?;
    }
    Ok(replies)
}

// Puts a text at the end.
fn push(text: &mut Vec<u8>, more: &[u8]) -> Result<(), AllocError>
    ensures { OnOk result (text.new.items ≡ text.old.items ++ more.now) }
{
    text.extend_from_slice(more)
}

// Puts a word and an integer at the end.
fn push_integer(text: &mut Vec<u8>, word: &[u8], value: i64) -> Result<(), AllocError>
    ensures { OnOk result (text.new.items ≡ text.old.items ++ (word.now ++ signed_decimal value)) }
{
    let mut buffer = Buffer::new();
    push(text, word)?;
    push(text, buffer.format(value).as_bytes())
}

// Puts a word and a count at the end.
fn push_count(text: &mut Vec<u8>, word: &[u8], count: u32) -> Result<(), AllocError>
    ensures { OnOk result (text.new.items ≡ text.old.items ++ (word.now ++ decimal count)) }
{
    let mut buffer = Buffer::new();
    push(text, word)?;
    push(text, buffer.format(count).as_bytes())
}

// Puts what is written for a line at the end, without its line feed.
fn push_reply(text: &mut Vec<u8>, reply: LineReply) -> Result<(), AllocError>
    ensures { OnOk result (text.new.items ≡ text.old.items ++ line_reply_text reply) }
{
    match reply {
        LineReply::Done => push(text, b"ok"),
        LineReply::Full => push(text, b"full"),
        LineReply::BadType => push(text, b"type"),
        LineReply::Empty => push(text, b"none"),
        LineReply::Yes => push(text, b"yes"),
        LineReply::Number(value) => push_integer(text, b"int ", value),
        LineReply::Counted(count) => push_count(text, b"count ", count),
    }
}

/// Puts the line of a reply at the end.
pub(crate) fn push_line(text: &mut Vec<u8>, reply: LineReply) -> Result<(), AllocError>
    ensures { OnOk result (text.new.items ≡ text.old.items ++ line (line_reply_text reply)) }
{
    push_reply(text, reply)?;
    push(text, b"\n")
}

/// What is written for replies.
pub(crate) fn print_replies(alloc: Global, replies: &[LineReply]) -> Result<Vec<u8>, AllocError>
    ensures { IfOk result (λ v. v.items ≡ replies_text replies.now) }
{
    let mut text = Vec::new(alloc);
    for reply in replies {
        push_line(&mut text, *reply)?;
    }
    Ok(text)
}
