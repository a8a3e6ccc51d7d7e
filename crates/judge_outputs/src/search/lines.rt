//! The lines of an output.
use model_core::reply::Reply;
use std::alloc::{AllocError, Global};
use text_script::{print_heading, print_reply};

/// What a line tells, as far as it says when it is printed.
#[derive(Clone, Copy, PartialEq, Eq)]
pub(crate) enum Kind {
    /// The run of a finaliser of `finalise`, and of `finalise_last`.
    Fin,
    Last,
    /// The reply of `full_major`.
    Live,
    /// The reply `full` of an allocation.
    Full,
    /// Each other reply of a command.
    Reply,
}

/// Where a line stands in the output, with its line feed.
#[derive(Clone, Copy)]
pub(crate) struct Line {
    pub start: usize,
    pub end: usize,
    pub kind: Kind,
}

// Whether the front of a buffer is this text.
fn is_front(text: &[u8], out: &[u8; 64], length: usize) -> bool {
    match out.get(..length) {
        Some(front) => front == text,
        None => false,
    }
}

/// Whether a reply is printed so.
pub(crate) fn prints(text: &[u8], reply: &Reply) -> bool {
    let mut out = [0; 64];
    let length = print_reply(reply, &mut out);
    is_front(text, &out, length)
}

// Whether a text is the heading of a domain.
fn is_heading(text: &[u8], domain: usize) -> bool {
    let Ok(domain) = u32::try_from(domain) else {
        return false;
    };
    let mut out = [0; 64];
    let length = print_heading(domain, &mut out);
    is_front(text, &out, length)
}

fn kind_of(text: &[u8]) -> Kind {
    if text.starts_with(b"fin ") {
        Kind::Fin
    } else if text.starts_with(b"last ") {
        Kind::Last
    } else if text.starts_with(b"live ") {
        Kind::Live
    } else if prints(text, &Reply::Full) {
        Kind::Full
    } else {
        Kind::Reply
    }
}

// Takes the line between two places. False where it is no line of a domain.
fn take_line(
    alloc: Global,
    sections: &mut Vec<Vec<Line>>,
    output: &[u8],
    start: usize,
    end: usize,
) -> Result<bool, AllocError> {
    let text = output.get(start..end).unwrap_or(&[]);
    if is_heading(text, sections.len()) {
        sections.push(Vec::new(alloc))?;
        return Ok(true);
    }
    let kind = kind_of(text);
    let Some(section) = sections.last_mut() else {
        return Ok(false);
    };
    section.push(Line { start, end, kind })?;
    Ok(true)
}

/// The lines of each section of an output, without its heading. `None` where a line stands before the first heading, or
/// the last one has no line feed.
pub(crate) fn read_output(
    alloc: Global,
    output: &[u8],
) -> Result<Option<Vec<Vec<Line>>>, AllocError> {
    let mut sections = Vec::new(alloc);
    let mut start: usize = 0;
    for (place, byte) in output.iter().enumerate() {
        if *byte == b'\n' {
            let end = place.saturating_add(1);
            if !take_line(alloc, &mut sections, output, start, end)? {
                return Ok(None);
            }
            start = end;
        }
    }
    Ok(if start == output.len() {
        Some(sections)
    } else {
        None
    })
}
