//! Laws of tables and weak arrays. Each function's contract is one law, and it does nothing else.
ghost use Rattle.weak_laws.specs.Tables.TableLaws.{BoundWhileReached, OtherTablesStay, OtherArraysStay, TakesFromTables, TakesFromArrays, CollectedKeysAreReached, KeysDiffer, OneLayout};

/// An entry of the collector takes from a table only pairs whose key is outside reach, and leaves it a table with the
/// same chains.
pub fn tables_are_thinned()
    ensures { TakesFromTables }
{}

/// An entry of the collector empties of a weak array only keys that are outside reach.
pub fn arrays_are_thinned()
    ensures { TakesFromArrays }
{}

/// After a complete collection in which a table is reached, each of its keys is reached.
pub fn collected_keys_are_reached()
    ensures { CollectedKeysAreReached }
{}

/// A table binds no key twice.
pub fn keys_differ()
    ensures { KeysDiffer }
{}

/// What a table's fields lead to is determined: it has one layout, and so one list of bindings.
pub fn layout_is_one()
    ensures { OneLayout }
{}

/// A binding that is there at one front is there at a later one, as long as its key is reached between and no call took it
/// out.
pub fn bound_while_reached()
    ensures { BoundWhileReached }
{}

/// A call leaves each table that has none of the blocks that it may change: only the collector takes bindings of it.
pub fn other_tables_stay()
    ensures { OtherTablesStay }
{}

/// And so each such weak array.
pub fn other_arrays_stay()
    ensures { OtherArraysStay }
{}
