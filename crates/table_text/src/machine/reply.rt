//! What is written for a line.
ghost use Rattle.std.specs.Prelude.{◌≡◌};
ghost use Rattle.table_text.specs.Machine.Said.{said as said_as};

use model_core::reply::Reply;

/// What is written for a line of a text of a table.
#[derive(Clone, Copy, Debug, PartialEq, Eq)]
pub enum LineReply {
    /// `ok`.
    Done,
    /// `full`: an allocation found no room.
    Full,
    /// `type`: the register holds no key.
    BadType,
    /// `none`: the key isn't bound, or the slot is empty.
    Empty,
    /// `yes`: the slot has a key.
    Yes,
    /// `int v`: what the key is bound to.
    Number(i64),
    /// `count n`: how many bindings there are.
    Counted(u32),
}

/// The reply of a line whose call was answered so.
pub fn said(reply: &Reply) -> LineReply
    ensures { result ≡ said_as reply.now }
{
    match *reply {
        Reply::Int(value) => LineReply::Number(value),
        Reply::Block(_) => LineReply::Yes,
        Reply::BadType => LineReply::BadType,
        Reply::Empty => LineReply::Empty,
        Reply::Full => LineReply::Full,
        _ => LineReply::Done,
    }
}
