//! Laws of a collection. Each function's contract is one law, and it does nothing else.
ghost use Rattle.model_cycle.specs.Beside.{BesideLaw};
ghost use Rattle.model_cycle.specs.Counting.{CountLaw};
ghost use Rattle.model_cycle.specs.CycleLaws.{DarkeningSteps, PhaseSteps, TakingSteps};
ghost use Rattle.model_cycle.specs.Fullness.{FullnessLaw};
ghost use Rattle.model_cycle.specs.Pools.{PoolsLaw};
ghost use Rattle.model_cycle.specs.Progress.{ProgressLaw};
ghost use Rattle.model_cycle.specs.Taking.{LeftLaw};

/// Each darkening, each scan, each store of the changed word, each look at an own place and each arrival keeps what holds
/// in its phase: in `Roots`, in `Mark` and in `Rounds`.
pub fn phases_are_kept()
    ensures { DarkeningSteps }
{}

/// In `Decide`, `Clean` and `Lasts` each `Queue`, `Wipe` and `Last` that is made for what is unmarked is allowed, and keeps
/// what holds in its phase.
pub fn entries_are_allowed()
    ensures { TakingSteps }
{}

/// Where all domains have arrived, what holds in a phase gives what holds at the start of the next, and the `Cut`, the
/// `Seal`, the `Collected` and the `Done` between them are allowed.
pub fn phases_follow()
    ensures { PhaseSteps }
{}

/// Once `Lasts` has ended each reference leads to a marked block, so the unmarked blocks may go; and where the cycle marked
/// nothing but what is reachable, a block is marked exactly where it is reachable.
pub fn rest_is_marked()
    ensures { LeftLaw }
{}

/// Where each domain has added the blocks and the words that are marked in its pools, the sums are what `full_major` answers.
pub fn live_words_are_counted()
    ensures { CountLaw }
{}

/// Whatever the history, `kept` counts the kept labels, each once; and where no more pools are free than the reserve,
/// these are many: an allocation may be answered `full`.
pub fn full_when_much_is_kept()
    ensures { FullnessLaw }
{}

/// While domains draw pools and fill them, the owned pools are no more than the kept labels and the classes of all domains.
pub fn pools_hold_kept_blocks()
    ensures { PoolsLaw }
{}

/// A domain that looks at a block field by field, or key by key, knows at its end of all of them.
pub fn scans_advance()
    ensures { ProgressLaw }
{}

/// While domains run, each darkening, each scan and each entry of a domain keeps what is known of the marks of a cycle; and
/// where all domains rest a pause may finish it.
pub fn law_beside()
    ensures { BesideLaw }
{}
