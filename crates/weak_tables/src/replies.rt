//! What a reply shows.
ghost use Rattle.std.specs.Prelude.{◌≡◌, ◌↔◌, cond, true};
ghost use Rattle.model_core.specs.declared.reply.Reply.TheVariants as variant;
ghost use Rattle.weak_laws.specs.Tables.Performing.{full_of};
ghost use Rattle.weak_tables.specs.Commands.{IsBlock, one_of};

use model_core::label::Label;
use model_core::reply::Reply;

// Whether a reply shows a block.
pub(crate) fn is_block(reply: &Reply) -> bool
    ensures { (result ≡ true) ↔ IsBlock reply.now }
{
    match reply {
        Reply::Block(_) => true,
        _ => false,
    }
}

// Whether a reply shows this block.
pub(crate) fn is_this(reply: &Reply, label: &Label) -> bool
    ensures { (result ≡ true) ↔ (reply.now ≡ variant.Block label.now) }
{
    match reply {
        Reply::Block(shown) => shown.domain == label.domain && shown.serial == label.serial,
        _ => false,
    }
}

// Whether a reply shows nothing.
pub(crate) fn is_empty(reply: &Reply) -> bool
    ensures { (result ≡ true) ↔ (reply.now ≡ variant.Empty) }
{
    matches!(reply, Reply::Empty)
}

// Whether an allocation was refused.
pub(crate) fn is_full(reply: &Reply) -> bool
    ensures full { (result ≡ true) ↔ (reply.now ≡ variant.Full) }
    ensures count { full_of reply.now ≡ cond result 1 0 }
{
    matches!(reply, Reply::Full)
}

// Whether an index was past the end.
pub(crate) fn is_past(reply: &Reply) -> bool
    ensures { (result ≡ true) ↔ (reply.now ≡ variant.BadIndex) }
{
    matches!(reply, Reply::BadIndex)
}

// 1 for a full key.
pub(crate) fn one(reply: &Reply) -> u32
    ensures one { result ≡ one_of reply.now }
{
    match reply {
        Reply::Yes => 1,
        _ => 0,
    }
}
