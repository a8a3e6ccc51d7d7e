//! The loop: the items of a schedule, and then rounds until all traces have ended.
ghost use Rattle.std.specs.Prelude.{◌<◌, ◌≡◌, ◌≤◌, ◌+◌, ◌*◌, ℕ, List, [], false, fold, length, max, true};
ghost use Rattle.std.specs.List.{list_all, range_with_len};
ghost use Rattle.model_core.specs.declared.entry.Entry.{Entry};
ghost use Rattle.model_traces.specs.Schedules.Scheduled.{Played, rounds_of, take_item, take_round, take_rounds};
ghost use Rattle.model_traces.specs.declared.schedules.items.Item.TheVariants.{Collect as CollectItem};
ghost use Rattle.text_script.specs.Schedule.Drive.Ending.{AllWithin, NoneMore};
ghost use Rattle.text_script.specs.Schedule.Drive.Following.{AllFollow, AreOver, HaveScheduledReplies, IsCalm, IsPlayed, is_for};
ghost use Rattle.text_script.specs.Schedule.Drive.Pausing.{all_commands, lefts};
ghost use Rattle.text_script.specs.Schedule.Drive.Spending.{most_in_pause, most_in_replay, most_in_round, most_in_turn};
ghost use Rattle.text_script.specs.Schedule.Drive.Together.{AllHave, Has};

use crate::schedule::drive::pausing::pause;
use crate::schedule::drive::together::TogetherRuns;
use crate::schedule::drive::turning::take_turn;
use model_traces::schedules::Item;

// Whether all traces have ended.
fn all_ended<T: TogetherRuns>(runs: &T) -> bool
    ensures yes { result ≡ true → AllHave (λ x. x.ended) true (T.seen runs.now) }
    ensures no { result ≡ false → (d : ℕ) × (d < length (T.seen runs.now).runs) × Has (λ x. x.ended) false (T.seen runs.now) d }
{
    'domains: for at in 0..runs.count() {
        if !runs.has_ended(at) {
            return false;
        }
    }
    true
}

// A complete collection that no command asks for, if not all traces have ended.
fn collect<T: TogetherRuns>(runs: &mut T)
    requires calm { IsCalm (T.seen runs.old) }
    requires room { most_in_pause < T.spare runs.old }
    ensures sizes { (T.seen runs.new).sizes ≡ (T.seen runs.old).sizes }
    ensures count { length (T.seen runs.new).runs ≡ length (T.seen runs.old).runs }
    ensures commands { all_commands (T.seen runs.new) ≡ all_commands (T.seen runs.old) }
    ensures calm { IsCalm (T.seen runs.new) }
    ensures none { NoneMore (T.seen runs.old) (T.seen runs.new) }
    ensures taken { (p : Played) → AllFollow (T.seen runs.old) (T.shares runs.old) p → AllFollow (T.seen runs.new) (T.shares runs.new) (take_item p CollectItem) }
    ensures spends { T.spare runs.old ≤ T.spare runs.new + most_in_pause }
{
    runs.shows_shared();
    if all_ended(runs) {
        return;
    }
    pause(runs, true);
    runs.shows_shared();
}

// One item of a schedule.
fn take_item<T: TogetherRuns>(runs: &mut T, item: Item)
    requires calm { IsCalm (T.seen runs.old) }
    requires inside { is_for (length (T.seen runs.old).runs) item ≡ true }
    requires room { most_in_turn < T.spare runs.old }
    ensures sizes { (T.seen runs.new).sizes ≡ (T.seen runs.old).sizes }
    ensures count { length (T.seen runs.new).runs ≡ length (T.seen runs.old).runs }
    ensures commands { all_commands (T.seen runs.new) ≡ all_commands (T.seen runs.old) }
    ensures calm { IsCalm (T.seen runs.new) }
    ensures none { NoneMore (T.seen runs.old) (T.seen runs.new) }
    ensures taken { (p : Played) → AllFollow (T.seen runs.old) (T.shares runs.old) p → AllFollow (T.seen runs.new) (T.shares runs.new) (take_item p item) }
    ensures spends { T.spare runs.old ≤ T.spare runs.new + most_in_turn }
{
    match item {
        Item::Turn(domain) => take_turn(runs, domain as usize),
        Item::Collect => collect(runs),
    }
}

// All items of a schedule.
fn take_items<T: TogetherRuns>(runs: &mut T, items: &[Item])
    requires calm { IsCalm (T.seen runs.old) }
    requires inside { list_all (is_for (length (T.seen runs.old).runs)) items.now ≡ true }
    requires room { length items.now * most_in_turn < T.spare runs.old }
    ensures sizes { (T.seen runs.new).sizes ≡ (T.seen runs.old).sizes }
    ensures count { length (T.seen runs.new).runs ≡ length (T.seen runs.old).runs }
    ensures commands { all_commands (T.seen runs.new) ≡ all_commands (T.seen runs.old) }
    ensures calm { IsCalm (T.seen runs.new) }
    ensures none { NoneMore (T.seen runs.old) (T.seen runs.new) }
    ensures taken { (p : Played) → AllFollow (T.seen runs.old) (T.shares runs.old) p → AllFollow (T.seen runs.new) (T.shares runs.new) (fold take_item p items.now) }
    ensures spends { T.spare runs.old ≤ T.spare runs.new + length items.now * most_in_turn }
{
    for item in items {
        take_item(runs, *item);
    }
}

// A turn of each domain, from the first on.
fn take_round<T: TogetherRuns>(runs: &mut T)
    requires calm { IsCalm (T.seen runs.old) }
    requires room { most_in_round (length (T.seen runs.old).runs) < T.spare runs.old }
    ensures sizes { (T.seen runs.new).sizes ≡ (T.seen runs.old).sizes }
    ensures count { length (T.seen runs.new).runs ≡ length (T.seen runs.old).runs }
    ensures commands { all_commands (T.seen runs.new) ≡ all_commands (T.seen runs.old) }
    ensures calm { IsCalm (T.seen runs.new) }
    ensures fewer { (n : ℕ) → AllWithin (n + 1) (T.seen runs.old) → AllWithin n (T.seen runs.new) }
    ensures taken { (p : Played) → IsPlayed (T.seen runs.old).sizes p → AllFollow (T.seen runs.old) (T.shares runs.old) p → AllFollow (T.seen runs.new) (T.shares runs.new) (take_round p) }
    ensures spends { T.spare runs.old ≤ T.spare runs.new + most_in_round (length (T.seen runs.old).runs) }
{
    runs.shows_shared();
    'domains: for at in 0..runs.count() {
        take_turn(runs, at);
    }
}

// So many rounds.
fn take_rounds<T: TogetherRuns>(runs: &mut T, rounds: usize)
    requires calm { IsCalm (T.seen runs.old) }
    requires room { rounds * most_in_round (length (T.seen runs.old).runs) < T.spare runs.old }
    ensures sizes { (T.seen runs.new).sizes ≡ (T.seen runs.old).sizes }
    ensures commands { all_commands (T.seen runs.new) ≡ all_commands (T.seen runs.old) }
    ensures calm { IsCalm (T.seen runs.new) }
    ensures ended { AllWithin rounds (T.seen runs.old) → AllHave (λ x. x.ended) true (T.seen runs.new) }
    ensures taken { (p : Played) → IsPlayed (T.seen runs.old).sizes p → AllFollow (T.seen runs.old) (T.shares runs.old) p → AllFollow (T.seen runs.new) (T.shares runs.new) (take_rounds rounds p) }
    ensures spends { T.spare runs.old ≤ T.spare runs.new + rounds * most_in_round (length (T.seen runs.old).runs) }
{
    'rounds: for _ in 0..rounds {
        take_round(runs);
    }
}

// The greater of two numbers.
fn greater(a: usize, b: usize) -> usize
    ensures { result ≡ max a b }
{
    if a < b { b } else { a }
}

// How many rounds end every trace: the longest has so many commands, and then its end.
fn rounds_of<T: TogetherRuns>(runs: &T) -> usize
    ensures { result ≡ rounds_of (lefts (T.seen runs.now)) }
{
    let mut most = 0;
    'domains: for at in 0..runs.count() {
        most = greater(most, runs.commands_left(at));
    }
    most + 1
}

/// Drives the runs of a heap by a schedule: its items in order, and then a turn of each domain again and again until all
/// traces have ended. The runs are those just made, and each item is for one of them.
///
/// In each history that the runs may share then, each domain has the replies that it has in the scheduled history. That
/// is a function of the numbers of the heap, the commands and the items, so a run prints the same each time.
///
/// It returns: each turn brings its trace nearer to its end, and each step of a pause the pause. `most_in_replay` says how
/// often each domain arrives at most, and so often each may still arrive.
pub fn replay<T: TogetherRuns>(runs: &mut T, items: &[Item])
    requires calm { IsCalm (T.seen runs.old) }
    requires fresh { (h : List Entry) → T.shares runs.old h → h ≡ [] }
    requires inside { list_all (is_for (length (T.seen runs.old).runs)) items.now ≡ true }
    requires room { most_in_replay (T.seen runs.old) items.now < T.spare runs.old }
    ensures over { AreOver (T.seen runs.old) (T.seen runs.new) }
    ensures replies { HaveScheduledReplies (T.seen runs.old) (T.shares runs.new) items.now }
{
    let rounds = rounds_of(runs);
    take_items(runs, items);
    take_rounds(runs, rounds);
}
