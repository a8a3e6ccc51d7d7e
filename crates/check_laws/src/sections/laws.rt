//! Laws of sections that spawn and join one another. Each function's contract is one law, and it does nothing else.
ghost use Rattle.check_laws.specs.Sections.Orders.{ScriptsAreOrderly};
ghost use Rattle.check_laws.specs.Sections.Passed.{ArgumentsArePassed, UnpassedIsZero};
ghost use Rattle.check_laws.specs.Sections.Printing.{SpawnsPrintOk};
ghost use Rattle.check_laws.specs.Sections.Seen.{SpawnsAreSeen, JoinsAreSeen};
ghost use Rattle.check_laws.specs.Sections.Waiting.{SomeGoesOn};

/// Each `argument` of a section answers what its spawn passed: what the item's register held, or 0 where it held nothing. In a
/// section that no spawn names it answers 0.
pub fn arguments_are_passed()
    ensures passed { ArgumentsArePassed }
    ensures zero { UnpassedIsZero }
{}

/// In each script of version 3 that is read no section is spawned twice, each is spawned by an earlier one, and a join names one
/// that its own section has spawned before it.
pub fn scripts_are_orderly()
    ensures { ScriptsAreOrderly }
{}

/// A `spawn` prints `ok`, and `argument` and `join` print an integer or a block, and never `type`.
pub fn spawns_print_ok()
    ensures { SpawnsPrintOk }
{}

/// What was written before a spawn, by its domain or another, the section that it names sees.
pub fn spawns_are_seen()
    ensures { SpawnsAreSeen }
{}

/// What a section wrote, up to its end, all see from the load on by which a join of it answers.
pub fn joins_are_seen()
    ensures { JoinsAreSeen }
{}

/// However far sections have come, one that hasn't ended goes on, or waits, perhaps over others that wait, for one that goes on.
pub fn some_section_goes_on()
    ensures { SomeGoesOn }
{}
