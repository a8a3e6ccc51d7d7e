//! What turns tell of each domain.
ghost use Rattle.std.specs.Prelude.{◌≡◌, ◌++◌, IfOk, OnOk};
ghost use Rattle.judge_outputs.specs.Sections.Turns.{lines_of, replies_of, section_told, told_from};
ghost use Rattle.table_text.specs.Machine.Texts.{replies_text};

use crate::sections::turn::Turn;
use crate::show::push_between;
use crate::texts::replies::push_line;
use std::alloc::{AllocError, Global};
use table_text::TableLine;

/// The lines of a domain, in their order.
pub(crate) fn lines_of(
    alloc: Global,
    turns: &[Turn],
    domain: u8,
) -> Result<Vec<TableLine>, AllocError>
    ensures { IfOk result (λ v. v.items ≡ lines_of domain turns.now) }
{
    let mut lines = Vec::new(alloc);
    for turn in turns {
        if turn.domain == domain {
            lines.push(turn.line)?;
        }
    }
    Ok(lines)
}

// Puts the replies of a domain at the end.
fn push_replies(text: &mut Vec<u8>, turns: &[Turn], domain: u8) -> Result<(), AllocError>
    ensures { OnOk result (text.new.items ≡ text.old.items ++ replies_text (replies_of domain turns.now)) }
{
    for turn in turns {
        if turn.domain == domain {
            push_line(text, turn.reply)?;
        }
    }
    Ok(())
}

// Puts what is written for a domain at the end.
fn push_section(text: &mut Vec<u8>, turns: &[Turn], domain: u8) -> Result<(), AllocError>
    ensures { OnOk result (text.new.items ≡ text.old.items ++ section_told domain turns.now) }
{
    push_between(text, b"domain ", u32::from(domain), b"\n")?;
    push_replies(text, turns, domain)
}

/// What is written for these turns of so many domains.
pub(crate) fn told(alloc: Global, turns: &[Turn], domains: u8) -> Result<Vec<u8>, AllocError>
    ensures { IfOk result (λ v. v.items ≡ told_from 0 domains turns.now) }
{
    let mut text = Vec::new(alloc);
    for domain in 0..domains {
        push_section(&mut text, turns, domain)?;
    }
    Ok(text)
}
