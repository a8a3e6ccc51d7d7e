//! How far a collection of the major heap has come.
ghost use Rattle.std.specs.Prelude.{◌≡◌};
ghost use Rattle.step_pauses.specs.Pauses.{armed_after, cut_in, progress_after, unswept_after, whole_after};

use heap_rule::{Kind, Progress};

// Whether the cut is made once the kind after this one is named.
fn cut_after(last: Kind, cut: bool) -> bool
    ensures { result ≡ cut_in last cut }
{
    match last {
        Kind::Reset | Kind::Roots => false,
        Kind::Queued => true,
        _ => cut,
    }
}

// Whether the collection under way began in this pause, once a kind is named after another.
fn whole_after(last: Kind, next: Kind, whole: bool) -> bool
    ensures { result ≡ whole_after last next whole }
{
    match (last, next) {
        (Kind::Reset | Kind::Sweep, Kind::Roots) => true,
        (Kind::Reset, Kind::Mark) => false,
        _ => whole,
    }
}

// Whether a sweep is owed, once a kind is named after another.
fn unswept_after(last: Kind, next: Kind, unswept: bool) -> bool
    ensures { result ≡ unswept_after last next unswept }
{
    match (last, next) {
        (Kind::Lasts, Kind::Run) => true,
        (Kind::Sweep, Kind::Run | Kind::Answer | Kind::Roots) => false,
        _ => unswept,
    }
}

// Whether a collection goes on beside running domains, once a kind is named after another.
fn armed_after(last: Kind, next: Kind, armed: bool) -> bool
    ensures { result ≡ armed_after last next armed }
{
    match (last, next) {
        (Kind::Roots, Kind::Run) => true,
        (Kind::Lasts | Kind::Sweep | Kind::Answer, Kind::Run) => false,
        _ => armed,
    }
}

// How far it has come once domain 0 has named a kind of phase after another.
pub(crate) fn progress_after(progress: Progress, last: Kind, next: Kind) -> Progress
    ensures { result ≡ progress_after last next progress }
{
    Progress {
        cut: cut_after(last, progress.cut),
        whole: whole_after(last, next, progress.whole),
        unswept: unswept_after(last, next, progress.unswept),
        armed: armed_after(last, next, progress.armed),
    }
}
