//! What an entry says of one domain.
ghost use Rattle.std.specs.Prelude.{◌≡◌, ◌++◌, ◌||◌, [], cond, OnOk};
ghost use Rattle.model_core.specs.History.{is_entry_of, reply_list};
ghost use Rattle.judge_plain.specs.History.Steps.{is_end_of as ends_in};

use model_core::entry::Entry;
use model_core::reply::{Applied, Reply};
use std::alloc::AllocError;

/// Whether an entry is a command, the end or a run finaliser of a domain.
pub(crate) fn is_own(d: u32, entry: &Entry) -> bool
    ensures { result ≡ is_entry_of d entry.now }
{
    match entry {
        Entry::Command { domain, .. } => *domain == d,
        Entry::End { domain } => *domain == d,
        Entry::Ran { domain } => *domain == d,
        _ => false,
    }
}

// Whether an entry is the end of a domain.
fn is_end(d: u32, entry: &Entry) -> bool
    ensures { result ≡ ends_in d entry.now }
{
    match entry {
        Entry::End { domain } => *domain == d,
        _ => false,
    }
}

/// Whether a domain has ended after an entry.
pub(crate) fn has_ended(ended: bool, d: u32, entry: &Entry) -> bool
    ensures { result ≡ (ended || ends_in d entry.now) }
{
    ended || is_end(d, entry)
}

/// Adds the reply of an entry, where it counts and has one.
pub(crate) fn add_reply(
    replies: &mut Vec<Reply>,
    counts: bool,
    applied: Applied,
) -> Result<(), AllocError>
    ensures { OnOk result (replies.new.items ≡ replies.old.items ++ cond counts (reply_list applied) []) }
{
    if counts {
        if let Applied::Replied(reply) = applied {
            replies.push(reply)?;
        }
    }
    Ok(())
}
