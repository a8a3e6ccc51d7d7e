//! Laws of the entries. Each function's contract is one law, and it does nothing else.
ghost use Rattle.model_core.specs.Reach.{ReachLaw};
ghost use Rattle.model_core.specs.Laws.{LabelsStay, NodesStay, ReachIsLeast, FullMajorCountsReach, WipeKeepsReach, CollectedLeavesNothing, FieldsAreFull};
ghost use Rattle.model_core.specs.Registrations.{RegistrationsRunOnce};

/// No entry removes a label from the graph: blocks are never freed, and never move.
pub fn labels_stay()
    ensures { LabelsStay }
{}

/// A label's node changes only by a store into it, by a key or datum command on it, or by a `Wipe` of it.
pub fn nodes_stay()
    ensures { NodesStay }
{}

/// Reachability is the least closed set that holds the roots, in a graph in which each label that is named has a node.
pub fn reach_is_least_closed()
    ensures { ReachLaw }
{}

/// Whatever the history, what a state reaches is the least closed set that holds its roots.
pub fn reach_is_least()
    ensures { ReachIsLeast }
{}

/// `full_major` counts what is reachable, each block once.
pub fn full_major_counts_reach()
    ensures { FullMajorCountsReach }
{}

/// A `Wipe` changes nothing of what is reachable.
pub fn wipe_keeps_reach()
    ensures { WipeKeepsReach }
{}

/// After a `Collected` no key, no datum and no registration is left that the collector may take.
pub fn collected_leaves_nothing()
    ensures { CollectedLeavesNothing }
{}

/// Each registration leaves its list at most once, and runs at most once: in no history are there more of a kind in the
/// lists, in the queue and among those that have run than were made.
pub fn registrations_run_once()
    ensures { RegistrationsRunOnce }
{}

/// No field ever holds nothing, and no field of a raw block a block: whatever the history, a plain block's fields hold
/// integers and blocks, and a raw block's fields integers.
pub fn fields_are_full()
    ensures { FieldsAreFull }
{}
