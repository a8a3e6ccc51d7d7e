//! Laws of maps that are swept, and of domains that rest. Each function's contract is one law, and it does nothing else.
ghost use Rattle.weak_maps.specs.Sweeps.SweepLaws.{RespectingBringsNoDead, RestingLeaves, StepsBringNoDead, SweptLeavesAreFew, SweptLeavesHaveKeys, SweptLeavesLived, WritingElsewhereLeaves};

/// A leaf that has lost its key comes to no place of a map by any step: it stood there before, or was taken one block deeper. So
/// domains that respect a map bring none.
pub fn dead_leaves_stay_out()
    ensures steps { StepsBringNoDead }
    ensures respecting { RespectingBringsNoDead }
{}

/// Each leaf that a map has behind a sweep stood there with its key when the sweep began, or came since. So there are no more
/// than the two together, and no more than keys were bound when it began and leaves came since.
pub fn swept_leaves_are_few()
    ensures lived { SweptLeavesLived }
    ensures few { SweptLeavesAreFew }
    ensures keys { SweptLeavesHaveKeys }
{}

/// Where from one front to a later one no other domain writes a block of a map, as where each rests, only reads, or writes
/// elsewhere, they leave it as it is, but for keys that are outside reach: a clean of the map gives its spent blocks back then,
/// in a heap of several domains too.
pub fn resting_domains_leave()
    ensures elsewhere { WritingElsewhereLeaves }
    ensures rest { RestingLeaves }
{}
