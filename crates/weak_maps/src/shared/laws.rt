//! Laws of a map that several domains use at once by `map_put`, `map_get` and `map_take`. Each function's contract is one law or
//! two, and it does nothing else.
ghost use Rattle.weak_maps.specs.Shared.Sharing.{CallsAreGuarded, CommandsBesideAreGuarded, EndsAreGuarded, GuardedEntriesRespect, LaterKeysAreGuarded, LookupsAreGuarded, OthersMayBeReliedOn, SeatsShareTheMap, StretchesAdd};
ghost use Rattle.weak_maps.specs.Shared.Orders.{BindingsAreOfOneOrder, FoundWasPut, PutIsFoundByAll, TakesDiffer};

/// Each entry of a put, of a take and of a lookup is guarded, wherever it stands in a history.
pub fn calls_are_guarded()
    ensures writers { CallsAreGuarded }
    ensures lookups { LookupsAreGuarded }
{}

/// So is each other command that writes no block, makes one, or writes one that can stand in no map, as an ephemeron of eight
/// keys can't; each that sets a key of an ephemeron but its first, whatever it is said to write; and the end of a domain, and
/// the run of a finaliser.
pub fn entries_beside_are_guarded()
    ensures commands { CommandsBesideAreGuarded }
    ensures keys { LaterKeysAreGuarded }
    ensures ends { EndsAreGuarded }
{}

/// So what a seat does is guarded, stretch by stretch, and where each seat of a heap does no more than that until the heap is
/// stopped, the map is shared: each entry of the whole history is guarded or the collector's.
pub fn seats_share_the_map()
    ensures add { StretchesAdd }
    ensures share { SeatsShareTheMap }
{}

/// Where each entry of a history is guarded or the collector's, all respect the map. So each call may rely on the others, as
/// its contract asks: nothing has to be assumed of them.
pub fn guarded_entries_respect()
    ensures respect { GuardedEntriesRespect }
    ensures rely { OthersMayBeReliedOn }
{}

/// The bindings of a shared map are those of a plain map, on which the calls of all domains are made one after the other in
/// the order of the history: each entry binds one key, or unbinds it, or changes nothing. But what a key was bound to that no
/// domain's register holds may be lost.
pub fn bindings_are_of_one_order()
    ensures { BindingsAreOfOneOrder }
{}

/// What a lookup of any domain finds, an entry has put there, and none has put or taken out anything of this key since. So
/// nothing is found that was never bound.
pub fn what_is_found_was_put()
    ensures { FoundWasPut }
{}

/// Two takes of one key that are both done take two bindings: between them an entry has bound the key again.
pub fn no_binding_is_taken_twice()
    ensures { TakesDiffer }
{}

/// What a put of one domain put, a later lookup of any domain finds, as long as the key is reached and no entry sets it
/// between: no put is lost.
pub fn no_put_is_lost()
    ensures { PutIsFoundByAll }
{}
