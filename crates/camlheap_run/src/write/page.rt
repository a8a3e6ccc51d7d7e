//! A page on which the lines of replies are gathered before a sink gets them.
ghost use Rattle.std.specs.Prelude.{◌≡◌, ◌+◌, ◌≤◌, ◌++◌, length, take};
ghost use Rattle.model_core.specs.Output.{line, printed, reply_text};

use model_core::reply::Reply;
use text_script::print_reply;

// How many lines a page has room for.
pub(crate) const LINES: usize = 64;

// The room for a line.
const ROOM: usize = 64;

// The room for so many lines.
pub(crate) type Page = [u8; 4096];

// Puts the line of a reply at the front of the room for one, and answers its length.
#[inline(always)]
fn put_at_front(room: &mut [u8], reply: &Reply) -> usize
    requires { length room.old ≡ ROOM }
    ensures within { result ≤ ROOM }
    ensures text { take result room.new ≡ line (reply_text reply.now) }
{
    let Some(out) = room.as_mut_array() else {
        unreachable!()
    };
    print_reply(reply, out)
}

// Puts the line of a reply behind the first `at` bytes, and answers where it ends.
#[inline(always)]
fn put_line(page: &mut Page, at: usize, reply: &Reply) -> usize
    requires { at + ROOM ≤ 4096 }
    ensures within { result ≤ at + ROOM }
    ensures front { take result page.new ≡ take at page.old ++ line (reply_text reply.now) }
{
    at + put_at_front(&mut page[at..at + ROOM], reply)
}

// Puts the lines of replies at the front of the page, in order, and answers where they end.
#[inline(never)]
pub(crate) fn put_lines(page: &mut Page, replies: &[Reply]) -> usize
    requires { length replies.now ≤ LINES }
    ensures within { result ≤ 4096 }
    ensures front { take result page.new ≡ printed replies.now }
{
    let mut at = 0;
    'replies: for reply in replies {
        at = put_line(page, at, reply);
    }
    at
}
