//! Laws of scheduled histories. Each function's contract is one law, and it does nothing else.
ghost use Rattle.model_traces.specs.Scheduled.Runs.{CompleteIsLegal, ScheduledIsLegal, ScheduledMakesEachCommand};

/// Wherever no collection is under way, the complete collection of a schedule may be made, and a `full_major` answered in it.
pub fn complete_is_legal()
    ensures { CompleteIsLegal }
{}

/// The scheduled history of a script that neither spawns nor joins is legal, whatever the schedule.
pub fn scheduled_is_legal()
    ensures { ScheduledIsLegal }
{}

/// In the scheduled history each domain makes the commands of its section, each once and in order, and ends.
pub fn scheduled_makes_each_command()
    ensures { ScheduledMakesEachCommand }
{}
