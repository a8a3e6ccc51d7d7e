//! Turns: each ends with the next command of its run, or with the end of the trace.
ghost use Rattle.std.specs.Prelude.{◌+◌, ◌<◌, ◌≡◌, ◌≤◌, false, length, true};
ghost use Rattle.model_traces.specs.Schedules.Scheduled.{Played, take_turn};
ghost use Rattle.text_script.specs.Schedule.Drive.Ending.{Nears, TakesOne};
ghost use Rattle.text_script.specs.Schedule.Drive.Following.{Advances, AllFollow, IsCalm, IsCalmBut, Waits};
ghost use Rattle.text_script.specs.Schedule.Drive.Pausing.{RestedAt, all_commands};
ghost use Rattle.text_script.specs.Schedule.Drive.Spending.{IsShort, SpendsFor, asked_at, most_in_pause, most_in_turn};
ghost use Rattle.text_script.specs.Schedule.Drive.Together.{Has};

use crate::schedule::drive::pausing::pause;
use crate::schedule::drive::together::{Stepped, TogetherRuns};

// The pause that a run has asked for. Where its next command is a `full_major` it is answered then.
fn pause_for<T: TogetherRuns>(runs: &mut T, at: usize, complete: bool)
    requires inside { at < length (T.seen runs.old).runs }
    requires calm { IsCalmBut (T.seen runs.old) at }
    requires goes_on { Has (λ x. x.ended) false (T.seen runs.old) at }
    requires waits { complete ≡ true → Waits (T.seen runs.old) (T.shares runs.old) at }
    requires room { most_in_pause < T.spare runs.old }
    ensures advances { Advances (T.shares runs.old) (T.shares runs.new) (T.seen runs.old) (T.seen runs.new) at complete }
    ensures asked { IsShort (T.seen runs.old) at → asked_at (T.seen runs.new) at ≡ asked_at (T.seen runs.old) at }
    ensures spends { T.spare runs.old ≤ T.spare runs.new + most_in_pause }
    ensures rested { RestedAt (T.seen runs.new) at }
{
    pause(runs, complete);
    runs.shows_shared();
}

// One step of a turn, with the pause that it asks for. Answers whether the next command or the end was made.
fn step_on<T: TogetherRuns>(runs: &mut T, at: usize) -> bool
    requires inside { at < length (T.seen runs.old).runs }
    requires calm { IsCalmBut (T.seen runs.old) at }
    requires goes_on { Has (λ x. x.ended) false (T.seen runs.old) at }
    requires room { most_in_pause < T.spare runs.old }
    requires rested { RestedAt (T.seen runs.old) at }
    ensures advances { Advances (T.shares runs.old) (T.shares runs.new) (T.seen runs.old) (T.seen runs.new) at result }
    ensures rested { result ≡ false → RestedAt (T.seen runs.new) at }
    ensures nears { result ≡ false → Nears (T.seen runs.old) (T.seen runs.new) at }
    ensures spends { result ≡ false → SpendsFor (asked_at (T.seen runs.old) at) (asked_at (T.seen runs.new) at) (T.spare runs.old) (T.spare runs.new) }
    ensures spends_last { result ≡ true → T.spare runs.old ≤ T.spare runs.new + most_in_pause }
{
    let stepped = runs.turn(at);
    runs.shows_shared();
    match stepped {
        Stepped::Ran => false,
        Stepped::Made => true,
        Stepped::Needs { complete } => {
            pause_for(runs, at, complete);
            complete
        }
    }
}

// The domain at this place runs what waits in its queue, and makes its next command or its end, if it hasn't made that.
pub(crate) fn take_turn<T: TogetherRuns>(runs: &mut T, at: usize)
    requires inside { at < length (T.seen runs.old).runs }
    requires calm { IsCalm (T.seen runs.old) }
    requires room { most_in_turn < T.spare runs.old }
    ensures sizes { (T.seen runs.new).sizes ≡ (T.seen runs.old).sizes }
    ensures count { length (T.seen runs.new).runs ≡ length (T.seen runs.old).runs }
    ensures commands { all_commands (T.seen runs.new) ≡ all_commands (T.seen runs.old) }
    ensures calm { IsCalm (T.seen runs.new) }
    ensures one { TakesOne (T.seen runs.old) (T.seen runs.new) at }
    ensures taken { (p : Played) → AllFollow (T.seen runs.old) (T.shares runs.old) p → AllFollow (T.seen runs.new) (T.shares runs.new) (take_turn p at) }
    ensures spends { T.spare runs.old ≤ T.spare runs.new + most_in_turn }
{
    runs.shows_shared();
    if runs.has_ended(at) {
        return;
    }
    'turns: loop {
        if step_on(runs, at) {
            return;
        }
        runs.shows_shared();
    }
}
