//! What holds of the lists of all trees: each function does nothing, and its contract is the law.
ghost use Rattle.unit_lists.specs.Laws.{NamesWithEntriesAreListed};

/// A name is listed exactly if it is a unit's, doesn't begin with a dot, and has an entry in one of
/// the four directories of units.
pub fn names_with_entries_are_listed()
    ensures { NamesWithEntriesAreListed }
{}
