//! Laws of schedules, and of states that are the same but for garbage. Each function's contract is one law, and it does nothing else.
ghost use Rattle.model_traces.specs.Schedules.Sameness.{CollectionLaw, StepLaw};
ghost use Rattle.model_traces.specs.Schedules.Sizes.{SizesLaw};

/// A command, the end of a trace or the run of a finaliser answers the same in states that are the same but for garbage, and
/// leaves states that are.
pub fn steps_answer_alike()
    ensures { StepLaw }
{}

/// A complete collection, however its entries are cut and ordered, leaves what that of a schedule leaves, but for garbage, and
/// its `full_major` answers the same.
pub fn collections_leave_alike()
    ensures { CollectionLaw }
{}

/// A replay depends on the number of domains, and on no other size of the heap: neither the scheduled history nor what it prints
/// changes with the pools, the minor areas or the size classes.
pub fn sizes_are_free()
    ensures { SizesLaw }
{}
