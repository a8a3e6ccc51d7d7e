//! Replies to a whole text.
ghost use Rattle.std.specs.Prelude.{◌≡◌, ◌≤◌, ◌<◌, ◌+◌, ◌^◌, IfNone, IfOk, IsTrue, List, Some, length, slice_get};
ghost use Rattle.model_core.specs.Domains.{IsWithinLimits};
ghost use Rattle.judge_outputs.specs.Texts.Playing.{AnswersBy, StepBy};
ghost use Rattle.table_text.specs.Machine.Machine.{all_made};
ghost use Rattle.table_text.specs.declared.line.TableLine.{TableLine as declared_line};

use crate::texts::machine::{Gone, Machine, label_of};
use crate::texts::steps::{labels_made, make_line, may_be_refused};
use model_core::state::Sizes;
use std::alloc::{AllocError, Global};
use table_text::machine::LineReply;
use table_text::{TableLine, TableText, Version};

// Makes the line of this number, the last of those that make so many labels, once what goes before it has gone, and answers
// whether it may be answered so.
#[tactic(auto, using(crate::proofs::OfTexts::RunLemmas::made_step, crate::proofs::OfTexts::RunLemmas::refused_step))]
fn step(
    machine: &mut Machine,
    alloc: Global,
    sizes: &Sizes,
    gone: &[Gone],
    version: Version,
    number: u32,
    line: TableLine,
    made: u64,
    reply: LineReply,
) -> Result<bool, AllocError>
    requires limits { IsWithinLimits sizes.now }
    requires few { made ≤ 2 ^ 40 }
    ensures { (lines : List declared_line) → made ≡ all_made version lines
        → IfOk result (λ yes. IsTrue yes → StepBy version sizes.now gone.now lines number line machine.old reply machine.new) }
{
    if !machine.let_go(alloc, number, gone)? {
        return Ok(false);
    }
    match reply {
        LineReply::Full => Ok(may_be_refused(machine, sizes, version, line, made)),
        _ => make_line(machine, alloc, line, label_of(number), reply),
    }
}

// The reply of a number, if there is one.
fn reply_at(replies: &[LineReply], at: usize) -> Option<LineReply>
    ensures { result ≡ slice_get replies.now at }
{
    replies.get(at).copied()
}

/// The first line, counted from 0, whose reply the machine hasn't in the run that is told by the keys that go before each line, or
/// that has no reply; `None`, where it may give all these replies. So a line says nothing of other runs.
#[tactic(auto, using(crate::proofs::OfTexts::RunLemmas::runs_first))]
pub fn refused_line(
    alloc: Global,
    sizes: &Sizes,
    text: &TableText,
    replies: &[LineReply],
    gone: &[Gone],
) -> Result<Option<usize>, AllocError>
    requires { IsWithinLimits sizes.now }
    ensures none { IfOk result
        (λ o. IfNone o (AnswersBy text.now.version sizes.now gone.now text.now.lines replies.now)) }
{
    let mut machine = Machine::new(alloc)?;
    let version = text.version();
    let mut made: u64 = 0;
    for i in 0..text.len() {
        let (Some(reply), Ok(number)) = (reply_at(replies, i), u32::try_from(i)) else {
            return Ok(Some(i));
        };
        let line = text.line(i);
        made += labels_made(version, line);
        if !step(
            &mut machine,
            alloc,
            sizes,
            gone,
            version,
            number,
            line,
            made,
            reply,
        )? {
            return Ok(Some(i));
        }
    }
    if text.len() < replies.len() {
        return Ok(Some(text.len()));
    }
    Ok(None)
}
