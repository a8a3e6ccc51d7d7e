//! Laws of sections that spawn and join one another. Each function's contract is one law, and it does nothing else.
ghost use Rattle.model_traces.specs.Spawns.Joined.{JoinLaw};
ghost use Rattle.model_traces.specs.Spawns.Printed.{PrintLaw};

/// Each command of a section that was spawned stands behind its spawn and before each load by which a join of it answers,
/// and that load gives what the section's last `result` stored, or 0 where none did.
pub fn joins_follow()
    ensures { JoinLaw }
{}

/// A section prints one reply for each of its commands, that of the last entry that stands for it, and none at its start and
/// at its end.
pub fn commands_print_once()
    ensures { PrintLaw }
{}
