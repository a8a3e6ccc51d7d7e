//! Laws of maps. Each function's contract is one law, and it does nothing else.
ghost use Rattle.weak_laws.specs.Maps.Within.{OtherMapsStay};
ghost use Rattle.weak_laws.specs.Maps.MapLaws.{SetBinds, DeepenKeeps, ClearKeeps, EmptyKeeps, BlocksStay, ReadTells, CollectorTakes, MapStays, PlacesStay, StepTells, AloneRespects, AloneLeaves, WaysDiffer, WaysPart, RespectedMapStays, LookupAnswersLastPut, HeldBindingIsFound, PutIsFound, CollectedKeysAreReached, DatumKeepsNoKey, NewMapIsEmpty, PrivateStays, PrivateStandsNowhere};
ghost use Rattle.weak_laws.specs.Maps.Tidy.{CleanedBlocksAreFew, CleanedLeavesAreFew, TidyBlocksAreFew, TidyBlocksLead};
ghost use Rattle.weak_laws.specs.Maps.Examples.{IsLegalExample, PutIsAStep, DeepenIsAStep, IsBoundDeeper, IsEmptyOnceCleaned, IsBoundWhileHeld, IsUnboundAfterwards, NoneLeavesIt, StoredNumberBreaksMap};

/// A root whose fields are 0 is a map, and binds nothing.
pub fn new_maps_are_empty()
    ensures { NewMapIsEmpty }
{}

/// Where a leaf of a key is set, or taken out, the key is bound as its new leaf binds it, and every other key as before.
pub fn set_binds()
    ensures { SetBinds }
{}

/// A leaf that goes one block deeper changes no binding.
pub fn deepen_keeps()
    ensures { DeepenKeeps }
{}

/// A block of a map stays where it is, whatever another call writes.
pub fn blocks_stay()
    ensures { BlocksStay }
{}

/// The field at which a key's way ends tells what the key is bound to.
pub fn read_tells()
    ensures { ReadTells }
{}

/// Where no call wrote a block, the collector took only bindings of keys that were outside reach.
pub fn collector_takes()
    ensures { CollectorTakes }
{}

/// A leaf that binds nothing may be taken out: no binding changes.
pub fn clear_keeps()
    ensures { ClearKeeps }
{}

/// A field that holds nothing any more may be emptied, also of a block of the map that is spent: no binding changes, and the map
/// is a map.
pub fn empty_keeps()
    ensures { EmptyKeeps }
{}

/// In a map without spent blocks each block but the first stands on the way to a leaf, so there are at most six for each leaf.
/// A clean leaves no more leaves than keys were bound when it began, and at most six blocks for each of those, beside the
/// first.
pub fn tidy_maps_are_small()
    ensures lead { TidyBlocksLead }
    ensures few { TidyBlocksAreFew }
    ensures blocks { CleanedBlocksAreFew }
    ensures leaves { CleanedLeavesAreFew }
{}

/// After each step a map is a map, and its blocks stand where they stood.
pub fn map_stays()
    ensures map { MapStays }
    ensures places { PlacesStay }
{}

/// What each step leaves of the bindings, told for all keys.
pub fn steps_tell()
    ensures { StepTells }
{}

/// A block that one domain alone holds: what others do leaves it as it is, but for what the collector takes, and it stands in
/// no map. So a leaf in the making is its maker's.
pub fn private_blocks_stay()
    ensures stays { PrivateStays }
    ensures nowhere { PrivateStandsNowhere }
{}

/// In a heap of one domain each entry that isn't that domain's respects each map, and leaves it as it is but for keys that are
/// outside reach.
pub fn alone_respects()
    ensures respects { AloneRespects }
    ensures leaves { AloneLeaves }
{}

/// No two keys have one way, so their ways part before they end.
pub fn ways_differ()
    ensures differ { WaysDiffer }
    ensures part { WaysPart }
{}

/// Over a history whose entries respect a map it stays one.
pub fn respected_map_stays()
    ensures { RespectedMapStays }
{}

/// What a map binds a key to is what was put last, unless the key was outside reach since.
pub fn lookup_answers_last_put()
    ensures { LookupAnswersLastPut }
{}

/// A binding whose key is reached all along is found, until an entry sets it.
pub fn held_binding_is_found()
    ensures { HeldBindingIsFound }
{}

/// What a put put, a later lookup of any domain answers, as long as the key is reached and no entry sets it between.
pub fn put_is_found()
    ensures { PutIsFound }
{}

/// To another map, with which its own shares nothing, a call does no more than a lookup: no binding of it is lost but of keys
/// that were outside reach.
pub fn other_maps_stay()
    ensures { OtherMapsStay }
{}

/// After a complete collection in which a map is reached, each key that it binds is reached.
pub fn collected_keys_are_reached()
    ensures { CollectedKeysAreReached }
{}

/// No binding keeps its own key alive: a key that is reached is reached without the datum that it is bound to.
pub fn datum_keeps_no_key()
    ensures { DatumKeepsNoKey }
{}

/// A small history: a key whose datum holds it is put and forgotten. A complete collection takes it, and none leaves it.
pub fn own_datum_is_collected()
    ensures legal { IsLegalExample }
    ensures step { PutIsAStep }
    ensures bound { IsBoundWhileHeld }
    ensures unbound { IsUnboundAfterwards }
    ensures none { NoneLeavesIt }
{}

/// Another: the leaf of a key goes one block deeper, and the key is bound as before.
pub fn leaf_goes_deeper()
    ensures step { DeepenIsAStep }
    ensures bound { IsBoundDeeper }
{}

/// Another: the leaf that went deeper has lost its key. It is emptied out of its block, and the block out of the map, which
/// holds nothing then.
pub fn cleaned_map_is_empty()
    ensures { IsEmptyOnceCleaned }
{}

/// Another: a number that is stored into a map's block by a command that is no map call's makes it no map.
pub fn stored_number_breaks_map()
    ensures { StoredNumberBreaksMap }
{}
