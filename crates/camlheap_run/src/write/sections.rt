//! Hands text to a sink.
ghost use Rattle.std.specs.Prelude.{◌++◌, length};
ghost use Rattle.model_core.specs.Output.{line, printed};
ghost use Rattle.text_script.specs.Spelling.{heading_text};
ghost use Rattle.text_ends.specs.Faults.{HasCause};
ghost use Rattle.text_ends.specs.Writing.{Writes};

use crate::write::page::{LINES, Page, put_lines};
use model_core::reply::Reply;
use text_ends::{Failed, Sink, write_all};
use text_script::{Line, print_heading};

// Writes the heading of a domain.
pub(crate) fn write_heading<K: Sink>(out: &mut K, domain: u32) -> Result<(), Failed>
    ensures cause { HasCause (K.faults out.old) (K.faults out.new) result }
    ensures bytes { Writes (K.written out.old) (K.written out.new) result (line (heading_text domain)) }
{
    let mut text: Line = [0; 64];
    let length = print_heading(domain, &mut text);
    write_all(out, &text[..length])
}

// Writes the lines of replies, in order: as many at once as a page has room for.
fn write_replies<K: Sink>(out: &mut K, replies: &[Reply]) -> Result<(), Failed>
    ensures cause { HasCause (K.faults out.old) (K.faults out.new) result }
    ensures bytes { Writes (K.written out.old) (K.written out.new) result (printed replies.now) }
{
    let mut page: Page = [0; 4096];
    'pages: for some in replies.chunks(LINES) {
        let length = put_lines(&mut page, some);
        write_all(out, &page[..length])?;
    }
    Ok(())
}

// Writes the section of a domain: its heading, and the lines of its replies.
pub(crate) fn write_section<K: Sink>(
    out: &mut K,
    domain: u32,
    replies: &[Reply],
) -> Result<(), Failed>
    ensures cause { HasCause (K.faults out.old) (K.faults out.new) result }
    ensures bytes { Writes (K.written out.old) (K.written out.new) result (line (heading_text domain) ++ printed replies.now) }
{
    write_heading(out, domain)?;
    write_replies(out, replies)
}
