//! Laws of the calls on a table. Each function's contract is one law, and it does nothing else.
ghost use Rattle.weak_tables.specs.Laws.{LookupsFind, PutsKeepOthers, TakesKeepOthers, BindingsAreFound, BucketsStaySmall};

/// A look-up answers what its key was bound to when the call began, if the key was reached all the while.
pub fn lookups_find()
    ensures { LookupsFind }
{}

/// A put or a take of one key leaves each other key that was reached all the while with what it was bound to, if to
/// anything.
pub fn other_keys_stay()
    ensures puts { PutsKeepOthers }
    ensures takes { TakesKeepOthers }
{}

/// What was put for a key is what a look-up of it answers, whatever calls and other commands came between, if none of them
/// put or took out the key, and the key was reached all the while.
pub fn bindings_are_found()
    ensures { BindingsAreFound }
{}

/// A bucket has at most one cell more than the most keys that were bound in it at a time, from a front on at which it had
/// no more: that is so of a new table, whose buckets have no cells.
pub fn buckets_stay_small()
    ensures { BucketsStaySmall }
{}
