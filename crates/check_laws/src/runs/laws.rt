//! Laws of runs that ended well. Each function's contract is one law, and it does nothing else.
ghost use Rattle.check_laws.specs.Runs.Explained.{ReplaysAreExplained, RunsAreExplained, RunsAreOne, SectionsAreExplained, SpawningRunsAreExplained, TablesAreExplained};
ghost use Rattle.check_laws.specs.Runs.Repeated.{ReplaysAreRepeated};
ghost use Rattle.check_laws.specs.Runs.Sections.{SpawningRunsKeep};

/// What a run of a script wrote, and what a replay wrote, some history explains to the judge, and what a text of a table wrote a run
/// of its machine, or of several domains one history of all their sections: so an output that none explains is none of this
/// program's.
pub fn runs_are_explained()
    ensures one { RunsAreOne }
    ensures runs { RunsAreExplained }
    ensures spawning { SpawningRunsAreExplained }
    ensures replays { ReplaysAreExplained }
    ensures tables { TablesAreExplained }
    ensures sections { SectionsAreExplained }
{}

/// Two replays of the same bytes that ended well wrote the same, on heaps with as many domains, whatever their pools and minor areas.
pub fn replays_are_repeated()
    ensures { ReplaysAreRepeated }
{}

/// What a run of a script of version 3 wrote is the text of a run in which each `argument` answers what its spawn passed, each
/// `spawn` prints `ok`, and each `argument` and `join` an integer or a block.
pub fn spawning_runs_keep()
    ensures { SpawningRunsKeep }
{}
