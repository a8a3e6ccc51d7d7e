//! Laws of the list of a map's bindings. Each function's contract is one law or two, and it does nothing else.
ghost use Rattle.weak_laws.specs.Lists.ListLaws.{ListedIsFound, ListedOnce, SetListed, SetBindsListed, TakenListed, DeepenListed, ClearListed, EmptyListed, UntouchedListed, ThinnedListed, CollectorListed, ListedInOrder, FoundListed, FoundButListed, LabelsStand, LeavesStand, ApartThinned, HeldKeysLive, LeafIsListed, MapHoldsItself};

/// The list binds each key as a lookup in the map does, and no key twice.
pub fn listed_is_found()
    ensures found { ListedIsFound }
    ensures once { ListedOnce }
{}

/// Where a leaf of a key is set, the list binds the key as the new leaf does, and without the key it is as it was. So where
/// the key is taken out, what is left is the list without it.
pub fn set_is_listed()
    ensures rest { SetListed }
    ensures binds { SetBindsListed }
    ensures taken { TakenListed }
{}

/// A leaf that goes one block deeper, a leaf that binds nothing and is taken out, a field that holds nothing and is emptied:
/// the list stays as it is.
pub fn other_steps_keep_the_list()
    ensures deeper { DeepenListed }
    ensures cleared { ClearListed }
    ensures emptied { EmptyListed }
    ensures untouched { UntouchedListed }
{}

/// Where leaves lose their keys, the list loses those pairs and keeps its order. The collector takes only keys that were
/// outside reach.
pub fn lost_keys_are_listed()
    ensures thinned { ThinnedListed }
    ensures collector { CollectorListed }
{}

/// The list stands in the order of its keys' ways. So what a map binds determines its list: two maps that bind the same have
/// one list, and two that bind the same but for one key have one without it.
pub fn list_is_in_order()
    ensures ordered { ListedInOrder }
    ensures found { FoundListed }
    ensures rest { FoundButListed }
{}

/// The labels that are listed as those of a map's blocks are those that stand in it, and those of its leaves are those at
/// which leaves stand. So what writes none of them leaves the map as it is, but for keys that its leaves lose.
pub fn listed_labels_stand()
    ensures labels { LabelsStand }
    ensures leaves { LeavesStand }
    ensures apart { ApartThinned }
{}

/// What is reached with a map: each key that it binds, once no leaf is left whose key isn't reached. Its own blocks keep no
/// others alive, where no key is bound to a block and no leaf without its key has a datum.
pub fn listed_keys_are_held()
    ensures keys { HeldKeysLive }
    ensures leaves { LeafIsListed }
    ensures blocks { MapHoldsItself }
{}
