//! One turn of the machine of several domains.
ghost use Rattle.std.specs.Prelude.{◌≡◌, IfOk, IsTrue};
ghost use Rattle.judge_outputs.specs.Sections.Machine.{MayBeFull, SharedStep, placed};

use crate::sections::goes::let_go;
use crate::sections::turn::{Turn, placed};
use crate::texts::machine::Machine;
use crate::texts::steps::{has_its_key, labels_made, make_line};
use model_core::label::Label;
use std::alloc::{AllocError, Global};
use table_text::machine::LineReply;
use table_text::{TableLine, Version};

// Whether a line may be answered `full`.
fn may_be_full(machine: &Machine, line: TableLine) -> bool
    ensures { IsTrue result → MayBeFull line machine.now }
{
    labels_made(Version::Two, line) != 0 && has_its_key(machine, line)
}

// Makes a line, and answers whether it may be answered so. A key that it makes has this label.
fn make_placed(
    machine: &mut Machine,
    alloc: Global,
    line: TableLine,
    label: Label,
    reply: LineReply,
) -> Result<bool, AllocError>
    ensures { IfOk result (λ yes. IsTrue yes → SharedStep line machine.old reply machine.new) }
{
    let_go(machine, alloc, line, reply)?;
    match reply {
        LineReply::Full => Ok(may_be_full(machine, line)),
        _ => make_line(machine, alloc, line, label, reply),
    }
}

/// Makes a turn, and answers whether it may be answered so. A key that it makes has this label.
pub(crate) fn make_turn(
    machine: &mut Machine,
    alloc: Global,
    turn: Turn,
    label: Label,
) -> Result<bool, AllocError>
    ensures { IfOk result (λ yes. IsTrue yes → SharedStep (placed turn.domain turn.line) machine.old turn.reply machine.new) }
{
    match placed(turn.domain, turn.line) {
        Some(line) => make_placed(machine, alloc, line, label, turn.reply),
        None => Ok(false),
    }
}
