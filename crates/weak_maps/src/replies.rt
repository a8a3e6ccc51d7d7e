//! What a reply shows.
ghost use Rattle.std.specs.Prelude.{◌≡◌, ◌↔◌, cond, true};
ghost use Rattle.model_core.specs.declared.reply.Reply.TheVariants as variant;
ghost use Rattle.weak_laws.specs.Tables.Performing.{full_of};
ghost use Rattle.weak_maps.specs.Commands.{IsBlock};
ghost use Rattle.weak_maps.specs.Puts.{other_block};

use model_core::label::Label;
use model_core::reply::Reply;

/// Whether a reply shows a block.
pub fn is_block(reply: &Reply) -> bool
    ensures { (result ≡ true) ↔ IsBlock reply.now }
{
    match reply {
        Reply::Block(_) => true,
        _ => false,
    }
}

/// Whether a reply shows this block.
pub fn is_this(reply: &Reply, label: &Label) -> bool
    ensures { (result ≡ true) ↔ (reply.now ≡ variant.Block label.now) }
{
    match reply {
        Reply::Block(shown) => shown.domain == label.domain && shown.serial == label.serial,
        _ => false,
    }
}

/// The block that a reply shows, but for this one.
pub fn other_than(reply: &Reply, label: &Label) -> Option<Label>
    ensures { result ≡ other_block label.now reply.now }
{
    match reply {
        Reply::Block(shown) => {
            if shown.domain == label.domain && shown.serial == label.serial {
                None
            } else {
                Some(*shown)
            }
        }
        _ => None,
    }
}

/// Whether a reply says that a block isn't of the kind that was asked for.
pub fn is_other_kind(reply: &Reply) -> bool
    ensures { (result ≡ true) ↔ (reply.now ≡ variant.BadType) }
{
    matches!(reply, Reply::BadType)
}

/// Whether a reply shows nothing.
pub fn is_empty(reply: &Reply) -> bool
    ensures { (result ≡ true) ↔ (reply.now ≡ variant.Empty) }
{
    matches!(reply, Reply::Empty)
}

/// Whether a compare-and-set was made.
pub fn is_yes(reply: &Reply) -> bool
    ensures { (result ≡ true) ↔ (reply.now ≡ variant.Yes) }
{
    matches!(reply, Reply::Yes)
}

/// Whether an allocation was refused.
pub fn is_full(reply: &Reply) -> bool
    ensures full { (result ≡ true) ↔ (reply.now ≡ variant.Full) }
    ensures count { full_of reply.now ≡ cond result 1 0 }
{
    matches!(reply, Reply::Full)
}
