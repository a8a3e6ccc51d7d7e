//! Writes the replies of a text of a table, line by line, and of several domains section by section.
ghost use Rattle.std.specs.Prelude.{◌≡◌, ◌≤◌, length, map, take};
ghost use Rattle.model_core.specs.Output.{line};
ghost use Rattle.text_ends.specs.Faults.{HasCause};
ghost use Rattle.table_text.specs.Machine.Texts.{line_reply_text, replies_text};
ghost use Rattle.camlheap_run.specs.Tables.{section_text, sections_text};
ghost use Rattle.text_ends.specs.Writing.{Writes};

use crate::write::buffer::{put, put_integer, put_number};
use crate::write::sections::write_heading;
use table_text::machine::LineReply;
use text_ends::{Failed, Sink, write_all};

// Puts what is written for a line, without its line feed, at the front of the buffer, and answers where it ends.
fn put_answer(out: &mut [u8; 128], reply: LineReply) -> usize
    ensures end { result ≤ 64 }
    ensures front { take result out.new ≡ line_reply_text reply }
{
    match reply {
        LineReply::Done => put(out, 0, b"ok"),
        LineReply::Full => put(out, 0, b"full"),
        LineReply::BadType => put(out, 0, b"type"),
        LineReply::Empty => put(out, 0, b"none"),
        LineReply::Yes => put(out, 0, b"yes"),
        LineReply::Number(value) => {
            let at = put(out, 0, b"int ");
            put_integer(out, at, value)
        }
        LineReply::Counted(count) => {
            let at = put(out, 0, b"count ");
            put_number(out, at, u64::from(count))
        }
    }
}

// Writes the line of a reply.
fn write_answer<K: Sink>(out: &mut K, reply: LineReply) -> Result<(), Failed>
    ensures cause { HasCause (K.faults out.old) (K.faults out.new) result }
    ensures bytes { Writes (K.written out.old) (K.written out.new) result (line (line_reply_text reply)) }
{
    let mut text = [0; 128];
    let at = put_answer(&mut text, reply);
    let length = put(&mut text, at, b"\n");
    write_all(out, &text[..length])
}

// Writes the lines of replies, in order.
pub(crate) fn write_answers<K: Sink>(out: &mut K, replies: &[LineReply]) -> Result<(), Failed>
    ensures cause { HasCause (K.faults out.old) (K.faults out.new) result }
    ensures bytes { Writes (K.written out.old) (K.written out.new) result (replies_text replies.now) }
{
    'replies: for reply in replies {
        write_answer(out, *reply)?;
    }
    Ok(())
}

// Writes the section of a domain: its heading, and the lines of its replies.
fn write_section<K: Sink>(out: &mut K, domain: u32, replies: &[LineReply]) -> Result<(), Failed>
    ensures cause { HasCause (K.faults out.old) (K.faults out.new) result }
    ensures bytes { Writes (K.written out.old) (K.written out.new) result (section_text domain replies.now) }
{
    write_heading(out, domain)?;
    write_answers(out, replies)
}

// Writes the sections of all domains, in order.
pub(crate) fn write_sections<K: Sink>(
    out: &mut K,
    sections: &[Vec<LineReply>],
) -> Result<(), Failed>
    requires { length sections.now ≤ 8 }
    ensures cause { HasCause (K.faults out.old) (K.faults out.new) result }
    ensures bytes { Writes (K.written out.old) (K.written out.new) result (sections_text 0 (map (λ v. v.items) sections.now)) }
{
    'sections: for (domain, replies) in sections.iter().enumerate() {
        write_section(out, domain as u32, replies.as_slice())?;
    }
    Ok(())
}
