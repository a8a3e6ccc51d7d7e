//! The lines of a section, made by the domain one after the other.
ghost use Rattle.std.specs.Prelude.{◌≡◌, ◌≤◌, [], length, vec_capacity};
ghost use Rattle.std.specs.List.{AllByRecursion};
ghost use Rattle.table_sections.specs.Lines.{HasRoomFor, IsSharedLine, TakesAtMost};
ghost use Rattle.table_sections.specs.Sections.{SectionDone};
ghost use Rattle.weak_maps.specs.Frames.{Stays};

use crate::line::run_line;
use std::sync::Wait;
use table_text::TableLine;
use table_text::machine::LineReply;
use weak_maps::machine::Machine;

/// Makes the lines of a section one after the other, on the map in register 6 and the slots in registers 7, 12 and 13, and
/// answers what is written for them. Registers 1 to 5 hold the section's keys; register 0 is used between, and so are registers 8
/// to 11. `room` is empty and has room for the replies: no memory is taken. A line takes seven labels at most, and room for one
/// ephemeron.
///
/// Other domains may make sections of their own meanwhile, each by this call: a section guards the map as a call does, so
/// nothing has to be assumed of the others where they do no more than that. Each line has fronts in the history, one behind
/// the other in the lines' order, and is answered between them as its call or its command is: `full` for a key exactly where the
/// allocation was refused, and for a put where one was or others have crowded the key's way; no other line is answered so.
pub fn run_section<M: Machine, R: Wait>(
    m: &mut M,
    rt: &R,
    lines: Vec<TableLine>,
    room: Vec<LineReply>,
) -> Vec<LineReply>
    requires fits { AllByRecursion IsSharedLine lines.items }
    requires spare { HasRoomFor (length lines.items) (M.labels_left m.old) (M.ephes_room m.old) }
    requires room { (room.items ≡ []) × (length lines.items ≤ vec_capacity room) }
    ensures stays { Stays M.sizes M.domain M.heap m.old m.new }
    ensures takes { TakesAtMost (length lines.items) (M.labels_left m.old) (M.labels_left m.new)
        (M.ephes_room m.old) (M.ephes_room m.new) }
    ensures done { SectionDone (M.sizes m.old) (M.domain m.old) (M.front m.old) lines.items result.items
        (M.front m.new) }
{
    let mut replies = room;
    'lines: for line in lines {
        let reply = run_line(m, rt, line);
        replies.push_reserved(reply);
    }
    replies
}
