//! Laws of all legal histories. Each function's contract is one law, and it does nothing else.
ghost use Rattle.model_laws.specs.Histories.Cells.{CellsHoldLastWritten};
ghost use Rattle.model_laws.specs.Histories.Finalisers.{NoRegistrationIsLost, FinalisersRunInOrder, CollectionsQueueNewestFirst, LastsWaitForAll, FinalsRunBeforeLasts};
ghost use Rattle.model_laws.specs.Histories.Lost.{LostIsNeverSeen, UncountedIsNeverSeen, EmptiedIsNeverSeen, TakenIsNeverSeen, MarksHoldAllLeft};
ghost use Rattle.model_laws.specs.Histories.Weak.{WeakKeysStay, ReachableKeysStay, DataStay, DataGoWithKeys};
ghost use Rattle.model_laws.specs.Histories.Reads.{ReadsAnswerLastWritten, WritesAreSeen};
ghost use Rattle.model_laws.specs.Histories.Held.{BlocksKeepShape, HeldBlocksAreThere, FullMajorLeavesNothing};
ghost use Rattle.model_laws.specs.Histories.Together.{FinalsGoTogether, TakenTogether};

/// A cell of a block holds what was last written to it, whichever domain wrote it, and else what a new block has there.
pub fn cells_hold_last_written()
    ensures { CellsHoldLastWritten }
{}

/// No registration of a domain that runs is lost: it waits in its list or in the queue, or has run.
pub fn no_registration_is_lost()
    ensures { NoRegistrationIsLost }
{}

/// A domain's finalisers run in the order in which collections queued them, and each that was queued runs before those
/// that were queued later.
pub fn finalisers_run_in_order()
    ensures { FinalisersRunInOrder }
{}

/// What one collection queues of a domain's `finalise` comes newest first.
pub fn collections_queue_newest_first()
    ensures { CollectionsQueueNewestFirst }
{}

/// Where a `finalise_last` is queued, no register of any domain holds its block, and no `finalise` of any domain waits
/// for it, in a list or in a queue.
pub fn lasts_wait_for_all()
    ensures { LastsWaitForAll }
{}

/// Before a `finalise_last` of a block is queued, each `finalise` of it has run that a domain registered which still runs.
pub fn finals_run_before_lasts()
    ensures { FinalsRunBeforeLasts }
{}

/// What the registers, the queues and the registrations don't lead to, over fields, data and keys, no register ever holds
/// and no reply ever names again.
pub fn lost_is_never_seen()
    ensures { LostIsNeverSeen }
{}

/// What a complete collection found unreachable, and so `full_major` doesn't count, is never seen again.
pub fn uncounted_is_never_seen()
    ensures { UncountedIsNeverSeen }
{}

/// Once a complete collection has emptied a weak key for a block, nothing brings the block back.
pub fn emptied_is_never_seen()
    ensures { EmptiedIsNeverSeen }
{}

/// Where a collection, complete or not, ends with nothing that it took among what domains may still come to, what it took is
/// never seen again.
pub fn taken_is_never_seen()
    ensures { TakenIsNeverSeen }
{}

/// What a collector has marked that keeps the keys of what it leaves holds all that domains may still come to.
pub fn marks_hold_all_left()
    ensures { MarksHoldAllLeft }
{}

/// A full weak key changes only by a command on it, or where the collector empties it at a moment when its block can't be
/// reached.
pub fn weak_keys_stay()
    ensures { WeakKeysStay }
{}

/// A weak key whose block is reachable all the while stays.
pub fn reachable_keys_stay()
    ensures { ReachableKeysStay }
{}

/// The data of an ephemeron change only by a command on them, or where the collector empties them with a key whose block
/// can't be reached.
pub fn data_stay()
    ensures { DataStay }
{}

/// Where the collector empties keys of an ephemeron the data go with them, and each of these keys had a block that can't be
/// reached.
pub fn data_go_with_keys()
    ensures { DataGoWithKeys }
{}

/// A load, and a read of a key or of data, answers what was last written there, whichever domain wrote it.
pub fn reads_answer_last_written()
    ensures { ReadsAnswerLastWritten }
{}

/// What a domain has written is found by every later read, or what was written there still later. So whoever finds a block
/// that another domain has stored finds all that was written to it before.
pub fn writes_are_seen()
    ensures { WritesAreSeen }
{}

/// A block that was made stands at its label with its kind, tag and length from then on.
pub fn blocks_keep_shape()
    ensures { BlocksKeepShape }
{}

/// A block in a register is there, and is reachable.
pub fn held_blocks_are_there()
    ensures { HeldBlocksAreThere }
{}

/// Where `full_major` is answered no key and no registration is left that a collection may take.
pub fn full_major_leaves_nothing()
    ensures { FullMajorLeavesNothing }
{}

/// All registrations of `finalise` of one block, by all domains, are queued by one collection.
pub fn finals_go_together()
    ensures { FinalsGoTogether }
{}

/// Where any collection ends, complete or not, a block of which it emptied a key or queued a `finalise_last` is unreachable,
/// is neither a key nor the data of a reachable ephemeron, and has no registration left.
pub fn taken_together()
    ensures { TakenTogether }
{}
