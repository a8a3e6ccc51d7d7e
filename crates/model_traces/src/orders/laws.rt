//! Laws of interleavings and schedules. Each function's contract is one law, and it does nothing else.
ghost use Rattle.model_traces.specs.Orders.Turns.{EachInterleavingIsScheduled, TurnsAreScheduled};

/// However the calls of the domains come between one another, where no collection comes in: the schedule of their turns, in
/// order, has the same replies.
pub fn each_interleaving_is_scheduled()
    ensures { EachInterleavingIsScheduled }
{}

/// So it is with collections, where each is complete, and with the finalisers of a domain, where they run right before its next
/// command.
pub fn turns_are_scheduled()
    ensures { TurnsAreScheduled }
{}
