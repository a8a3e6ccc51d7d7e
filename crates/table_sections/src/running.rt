//! The sections in their threads.
ghost use Rattle.std.specs.Prelude.{◌≡◌, ◌≤◌, [], IfOk, length, map, vec_capacity};
ghost use Rattle.std.specs.List.{AllByRecursion};
ghost use Rattle.run_seats.specs.Seating.{IsSeatOf};
ghost use Rattle.table_sections.specs.Preparing.{AllBack, AllRan, AllTasks, HasRunTask, MayRun};

use crate::section::run_section;
use heap_rule::Config;
use run_seats::{Resting, Seat, Seats};
use run_session::domains::SeatDomain;
use std::alloc::{AllocError, Global};
use std::sync::Wait;
use std::thread::{Threads, map_vec};
use table_text::TableLine;
use table_text::machine::LineReply;

/// A section that waits for its thread: the seat of its domain, which rests, its lines, and room for their replies.
#[derive(Drop)]
pub(crate) struct Task {
    pub(crate) resting: Resting,
    pub(crate) lines: Vec<TableLine>,
    pub(crate) room: Vec<LineReply>,
}

/// What a thread ends with: the seat, which rests, and the replies.
#[derive(Drop)]
pub(crate) struct Ran {
    pub(crate) resting: Resting,
    pub(crate) replies: Vec<LineReply>,
}

/// The sections with the seats of their domains, and room for all replies.
pub(crate) fn tasks_of(
    alloc: Global,
    ready: Vec<Resting>,
    sections: Vec<Vec<TableLine>>,
) -> Result<Vec<Task>, AllocError>
    requires len { length ready.items ≡ length sections.items }
    ensures tasks { IfOk result (λ v. AllTasks ready.items (map (λ ls. ls.items) sections.items) v.items) }
{
    let mut tasks = Vec::with_capacity(alloc, sections.len())?;
    let mut ready = ready;
    'sections: for lines in sections {
        let room = Vec::with_capacity(alloc, lines.len())?;
        let resting = ready.remove(0);
        tasks.push(Task {
            resting,
            lines,
            room,
        })?;
    }
    Ok(tasks)
}

// Makes a section.
fn run_task<R: Wait>(rt: &R, seats: &Seats, config: Config, task: Task) -> Ran
    requires config { config ≡ seats.now.heap.config }
    requires may { MayRun seats.now task }
    ensures ran { HasRunTask seats.now task result }
{
    let Task {
        resting,
        lines,
        room,
    } = task;
    let mut domain = SeatDomain::resume(rt, seats, config, resting);
    let replies = run_section(&mut domain, rt, lines, room);
    Ran {
        resting: domain.rest(rt),
        replies,
    }
}

/// Makes all sections, each in a thread.
pub(crate) fn run_all<R: Threads + Wait + Sync>(
    rt: &R,
    seats: &Seats,
    config: Config,
    tasks: Vec<Task>,
) -> Result<Vec<Ran>, AllocError>
    requires config { config ≡ seats.now.heap.config }
    requires may { AllByRecursion (MayRun seats.now) tasks.items }
    ensures ran { IfOk result (λ v. AllRan seats.now tasks.items v.items) }
{
    map_vec(
        rt,
        tasks,
        &|task| -> Ran
            requires { MayRun seats.now task × (config ≡ seats.now.heap.config) }
            ensures { HasRunTask seats.entry.now task result }
        { run_task(rt, seats, config, task) },
    )
}

/// Resumes all seats, in room that was taken before. Answers the replies too.
pub(crate) fn resume_all<R: Wait>(
    rt: &R,
    seats: &Seats,
    all: Vec<Ran>,
    replies: Vec<Vec<LineReply>>,
    back: Vec<Seat>,
) -> (Vec<Vec<LineReply>>, Vec<Seat>)
    requires none { (replies.items ≡ []) × (back.items ≡ []) }
    requires capacity { (length all.items ≤ vec_capacity replies) × (length all.items ≤ vec_capacity back) }
    requires here { AllByRecursion (λ r. IsSeatOf seats.now r.resting) all.items }
    ensures back { AllBack seats.now all.items (map (λ rs. rs.items) result.0.items) result.1.items }
{
    let (mut replies, mut back) = (replies, back);
    'all: for ran in all {
        replies.push_reserved(ran.replies);
        back.push_reserved(ran.resting.resume(rt, seats));
    }
    (replies, back)
}
