//! The lines of a domain at the front of an output.
ghost use Rattle.std.specs.Prelude.{◌≡◌, ◌≢◌, ◌++◌, List, ℕ, IfSome, IfNone};
ghost use Rattle.model_core.specs.Output.{line, printed, reply_text};
ghost use Rattle.text_script.specs.Spelling.{heading_text};
ghost use Rattle.judge_plain.specs.History.Explains.{section_lines};

use model_core::reply::Reply;
use text_script::{Line, print_heading, print_reply};

// What stands behind a front.
fn behind<'a>(bytes: &'a [u8], front: &[u8]) -> Option<&'a [u8]>
    ensures some { IfSome result (λ rest. bytes.now ≡ front.now ++ rest.now) }
    ensures none { IfNone result ((more : List ℕ) → bytes.now ≢ front.now ++ more) }
{
    bytes.strip_prefix(front)
}

// What stands behind the line of a reply.
fn behind_reply<'a>(bytes: &'a [u8], reply: &Reply) -> Option<&'a [u8]>
    ensures some { IfSome result (λ rest. bytes.now ≡ line (reply_text reply.now) ++ rest.now) }
    ensures none { IfNone result ((more : List ℕ) → bytes.now ≢ line (reply_text reply.now) ++ more) }
{
    let mut text: Line = [0; 64];
    let length = print_reply(reply, &mut text);
    behind(bytes, &text[..length])
}

// What stands behind the heading of a domain.
fn behind_heading(bytes: &[u8], domain: u32) -> Option<&[u8]>
    ensures some { IfSome result (λ rest. bytes.now ≡ line (heading_text domain) ++ rest.now) }
    ensures none { IfNone result ((more : List ℕ) → bytes.now ≢ line (heading_text domain) ++ more) }
{
    let mut text: Line = [0; 64];
    let length = print_heading(domain, &mut text);
    behind(bytes, &text[..length])
}

// What stands behind the lines of replies.
fn behind_replies<'a>(bytes: &'a [u8], replies: &[Reply]) -> Option<&'a [u8]>
    ensures some { IfSome result (λ rest. bytes.now ≡ printed replies.now ++ rest.now) }
    ensures none { IfNone result ((more : List ℕ) → bytes.now ≢ printed replies.now ++ more) }
{
    let mut rest = bytes;
    for reply in replies {
        rest = behind_reply(rest, reply)?;
    }
    Some(rest)
}

/// What stands behind the section of a domain.
pub fn behind_section<'a>(bytes: &'a [u8], domain: u32, replies: &[Reply]) -> Option<&'a [u8]>
    ensures some { IfSome result (λ rest. bytes.now ≡ section_lines domain replies.now ++ rest.now) }
    ensures none { IfNone result ((more : List ℕ) → bytes.now ≢ section_lines domain replies.now ++ more) }
{
    let rest = behind_heading(bytes, domain)?;
    behind_replies(rest, replies)
}
