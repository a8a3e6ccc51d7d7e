//! What a run's domain counts.
ghost use Rattle.std.specs.Prelude.{◌≡◌, ◌≤◌};
ghost use Rattle.run_turns.specs.Singly.Counting.{stats_of};

use crate::DomainRun;

/// What a domain counts. It costs no look at the heap. How many blocks live only a `full_major` tells.
#[derive(Clone, Copy, Debug, PartialEq, Eq)]
pub struct Stats {
    /// Labels that the domain has given out: one for each block that it has allocated.
    pub labels: u32,
    /// Words of its minor area that its young blocks take, in the words of their size classes.
    pub young_words: u32,
    /// Fields of blocks in pools that it remembers, since it stored young blocks there after its last collection.
    pub remembered: usize,
    /// Ephemerons in its pools, and those that a sweep has still to free.
    pub ephemerons: usize,
    /// Registrations of `finalise` that don't wait yet.
    pub finals: usize,
    /// Registrations of `finalise_last` that don't wait yet.
    pub lasts: usize,
    /// Finalisers that wait: they run before the next command.
    pub waiting: usize,
    /// How often it has arrived at the barrier: twice in each phase of a pause.
    pub arrivals: u64,
}

/// What the domain of a run counts.
pub fn counts(run: &DomainRun) -> Stats
    ensures stats { result ≡ stats_of run.now.token.view.own }
    ensures young { result.young_words ≤ run.now.token.config.minor_words }
{
    let domain = run.domain();
    Stats {
        labels: domain.labels_made(),
        young_words: domain.area_used(),
        remembered: domain.remembered_len(),
        ephemerons: domain.ephemerons_len(),
        finals: domain.finals_len(),
        lasts: domain.lasts_len(),
        waiting: domain.queued(),
        arrivals: domain.arrivals(),
    }
}
