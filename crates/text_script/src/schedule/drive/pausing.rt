//! Pauses of all runs.
ghost use Rattle.std.specs.Prelude.{◌+◌, ◌<◌, ◌≡◌, ◌≤◌, false, length, true};
ghost use Rattle.text_script.specs.Schedule.Drive.Pausing.{Paused};
ghost use Rattle.text_script.specs.Schedule.Drive.Spending.{most_in_pause};
ghost use Rattle.text_script.specs.Schedule.Drive.Together.{AllHave, Rests, SomeGone};

use crate::schedule::drive::together::TogetherRuns;

// Whether all domains run.
fn all_run<T: TogetherRuns>(runs: &T) -> bool
    ensures yes { result ≡ true → AllHave (λ x. x.runs) true (T.seen runs.now) }
    ensures no { result ≡ false → SomeGone (T.seen runs.now) }
{
    'domains: for at in 0..runs.count() {
        if !runs.running(at) {
            return false;
        }
    }
    true
}

// A pause, from where all domains run until they do again. A complete collection is made in it, or none. Each step brings
// it nearer to its end.
pub(crate) fn pause<T: TogetherRuns>(runs: &mut T, complete: bool)
    requires run { AllHave (λ x. x.runs) true (T.seen runs.old) }
    requires room { most_in_pause < T.spare runs.old }
    ensures run { AllHave (λ x. x.runs) true (T.seen runs.new) }
    ensures over { (T.seen runs.new).lead ≡ Rests }
    ensures paused { Paused complete (T.shares runs.old) (T.shares runs.new) (T.seen runs.old) (T.seen runs.new) }
    ensures spends { T.spare runs.old ≤ T.spare runs.new + most_in_pause }
{
    runs.halt_all(complete);
    runs.shows_shared();
    'passes: loop {
        if all_run(runs) {
            return;
        }
        runs.pass_next();
        runs.shows_shared();
    }
}
