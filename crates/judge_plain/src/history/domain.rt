//! What one domain does in a history.
ghost use Rattle.std.specs.Prelude.{◌≡◌, ◌≤◌, ◌++◌, List, IfOk, IfSome, IfNone, length, slice_get, take};
ghost use Rattle.model_core.specs.declared.command.Command.{Command as declared_command};
ghost use Rattle.model_core.specs.History.{command_of};
ghost use Rattle.judge_plain.specs.History.Steps.{answers, Does, MakesAndEnds};

use crate::history::command::same_command;
use crate::own::{add_reply, has_ended, is_own};
use model_core::command::Command;
use model_core::entry::Entry;
use model_core::reply::{Applied, Reply};
use model_core::state::Sizes;
use std::alloc::{AllocError, Global};

// How many commands of its section a domain has made after an entry. `None`: the entry is another command than the next.
fn count_made(section: &[Command], made: usize, d: u32, entry: &Entry) -> Option<usize>
    requires { made ≤ length section.now }
    ensures within { IfSome result (λ n. n ≤ length section.now) }
    ensures commands { IfSome result (λ n. take n section.now ≡ take made section.now ++ command_of d entry.now) }
    ensures other { IfNone result ((more : List declared_command) → take made section.now ++ (command_of d entry.now ++ more) ≡ section.now → ⊥) }
{
    match entry {
        Entry::Command {
            domain,
            command,
            ..
        } if *domain == d => {
            let next = section.get(made).copied()?;
            if same_command(*command, next) {
                Some(made + 1)
            } else {
                None
            }
        }
        _ => Some(made),
    }
}

// What the entry at a place answers.
fn answer_at(told: &[Applied], place: usize) -> Option<Applied>
    ensures { result ≡ slice_get told.now place }
{
    told.get(place).copied()
}

/// Reads what a domain does in a history whose entries give these answers on a heap of these sizes, and answers its replies. `None`: it makes other
/// commands in it than those of its section, or doesn't end.
pub(crate) fn read_domain(
    alloc: Global,
    _sizes: &Sizes,
    d: u32,
    section: &[Command],
    history: &[Entry],
    told: &[Applied],
) -> Result<Option<Vec<Reply>>, AllocError>
    requires { told.now ≡ answers _sizes.now history.now }
    ensures does { IfOk result (λ o. IfSome o (λ v. Does _sizes.now d section.now history.now v.items)) }
    ensures other { IfOk result (λ o. IfNone o (MakesAndEnds d section.now history.now → ⊥)) }
{
    let mut replies = Vec::new(alloc);
    let mut made = 0;
    let mut ended = false;
    for (i, entry) in history.iter().enumerate() {
        let Some(applied) = answer_at(told, i) else {
            return Ok(None);
        };
        add_reply(&mut replies, is_own(d, entry), applied)?;
        let Some(count) = count_made(section, made, d, entry) else {
            return Ok(None);
        };
        made = count;
        ended = has_ended(ended, d, entry);
    }
    if made == section.len() && ended {
        Ok(Some(replies))
    } else {
        Ok(None)
    }
}
