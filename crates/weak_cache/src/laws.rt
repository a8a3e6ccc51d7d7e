//! Laws of caches. Each function's contract is one law, and it does nothing else.
ghost use Rattle.weak_cache.specs.Laws.{AloneSpares, CacheIsBounded, GetKeeps, LossKeepsOthers, NoOtherIsFound, OtherCommandsSpare, OthersGoBack, OthersStay, PutIsFound, TakenInCallsIsNotFound, TakenIsNotFound, TakingKeepsOthers, UsedInCallsIsFound, UsedLastIsFound};

/// A cache has no more values than it has slots.
pub fn caches_are_bounded()
    ensures { CacheIsBounded }
{}

/// What is found of a key is the value of a slot of that key, and of no other.
pub fn no_other_is_found()
    ensures { NoOtherIsFound }
{}

/// What was put is found, and stands first.
pub fn put_is_found()
    ensures { PutIsFound }
{}

/// Where a key is used, each other goes one slot back at most, and is found still, unless it stood last. One before which the
/// key stood stays where it is, so a key that is used again counts once.
pub fn others_go_back()
    ensures back { OthersGoBack }
    ensures stay { OthersStay }
{}

/// What was put of a key, or found, is found again as long as it isn't lost or taken out and fewer different keys were used
/// since than there are slots: it was among the last n different keys of a cache of n slots.
pub fn used_last_is_found()
    ensures uses { UsedLastIsFound }
    ensures calls { UsedInCallsIsFound }
{}

/// What was taken out isn't found until it is put again.
pub fn taken_is_not_found()
    ensures slots { TakenIsNotFound }
    ensures calls { TakenInCallsIsNotFound }
{}

/// Where a key is taken out, each other key has what it had, and no more stand before it.
pub fn taking_keeps_others()
    ensures { TakingKeepsOthers }
{}

/// To use what is found changes no value.
pub fn get_keeps()
    ensures { GetKeeps }
{}

/// Where slots lose keys that are outside reach, each other key is found as before, and stands where it stood.
pub fn loss_keeps_others()
    ensures { LossKeepsOthers }
{}

/// In a heap of one domain nobody else uses a cache.
pub fn alone_spares()
    ensures { AloneSpares }
{}

/// In a heap of one domain a command that changes only blocks apart from a cache has it lose only what keys had that were
/// outside reach.
pub fn other_commands_spare()
    ensures { OtherCommandsSpare }
{}
