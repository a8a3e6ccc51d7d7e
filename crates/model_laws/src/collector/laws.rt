//! Laws of what a program sees of the collector. Each function's contract is one law, and it does nothing else.
ghost use Rattle.model_laws.specs.Collector.Blindness.{CollectorIsUnseen};
ghost use Rattle.model_laws.specs.Collector.Idle.{IdleCollectionsAreUnseen};

/// Two histories in which domains make the same entries in the same order answer the same, but where a weak key or data are
/// looked at and in the counts of `full_major`, as long as what is taken out of ephemerons is the same and no finaliser runs.
pub fn collector_is_unseen()
    ensures { CollectorIsUnseen }
{}

/// A collection that takes nothing, complete or not, changes no later reply, whatever follows.
pub fn idle_collections_are_unseen()
    ensures { IdleCollectionsAreUnseen }
{}
