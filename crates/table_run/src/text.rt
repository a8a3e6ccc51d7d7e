//! A text, line by line.
ghost use Rattle.std.specs.Prelude.{◌≡◌, ◌+◌, ◌≤◌, [], length, vec_capacity};
ghost use Rattle.model_core.specs.Domains.{reserve};
ghost use Rattle.table_text.specs.Machine.Machine.{all_made};
ghost use Rattle.table_run.specs.Running.{TextRuns, all_rooms};

use crate::keepers::OneDomain;
use crate::line::run_line;
use crate::prepare::prepare;
use std::sync::Wait;
use table_text::TableText;
use table_text::machine::LineReply;
use weak_tables::machine::Machine;

/// Runs a text of a table over a session that has made no command, and answers what is written for its lines. `room` is
/// empty and has room for them: no memory is taken.
///
/// The replies are those of the machine of the text ([`table_text::machine`]), and the history has a prefix for each line, after
/// which registers 1 to 5, the bindings of one table or map and the slots of one weak array are the machine's.
pub fn run_text<M: Machine, R: Wait>(
    m: &mut OneDomain<M>,
    rt: &R,
    text: &TableText,
    room: Vec<LineReply>,
) -> Vec<LineReply>
    requires empty { M.front m.old.machine ≡ [] }
    requires pools { reserve (M.sizes m.old.machine) + (M.sizes m.old.machine).classes + 32
        ≤ (M.sizes m.old.machine).pools }
    requires labels { 18 + all_made text.now.version text.now.lines ≤ M.labels_left m.old.machine }
    requires ephemerons { 16 + all_rooms text.now.lines ≤ M.ephes_room m.old.machine }
    requires none { room.items ≡ [] }
    requires capacity { length text.now.lines ≤ vec_capacity room }
    ensures sizes { M.sizes m.new.machine ≡ M.sizes m.old.machine }
    ensures runs { TextRuns text.now.version (M.sizes m.old.machine) text.now.lines result.items
        (M.front m.new.machine) }
{
    let version = text.version();
    let mut replies = room;
    m.machine.shows_legal();
    prepare(version, m, rt);
    'lines: for i in 0..text.len() {
        replies.push_reserved(run_line(version, m, rt, text.line(i)));
    }
    replies
}
