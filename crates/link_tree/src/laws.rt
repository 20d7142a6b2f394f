//! Laws of all trees: each function does nothing, and its contract is the law.
ghost use Rattle.link_tree.specs.Laws.{ReadsBack, LengthsAreDecimals, TakenBack, ChangesLead};
ghost use Rattle.link_tree.specs.FirstFaults.{FirstFaultIsReported};
ghost use Rattle.link_tree.specs.Grammar.{InventoriesAreEntries};

/// Reading the text written for a tree gives that tree back, whatever bytes follow it, if the tree
/// has no more entries than the reader accepts.
pub fn inventories_are_read_back()
    ensures { ReadsBack }
{}

/// Bytes are read as a tree with some rest exactly if they are the header, the lines of at most
/// 65,536 entries with distinct paths in any order, and the line `end`, then that rest. The tree is
/// the map of these entries, each of which is allowed at its path, and none is beneath another.
pub fn inventories_are_their_entries()
    ensures { InventoriesAreEntries }
{}

/// A fault is reported, with the number of its entry, exactly if it is the first: the header is
/// missing, or the header and the lines of some entries that form a tree come before an entry, and
/// of what is wrong with this one it is the first in the table `table`.
pub fn the_first_fault_is_reported()
    ensures { FirstFaultIsReported }
{}

/// A length in an inventory has one spelling, the decimal digits of the number.
pub fn lengths_have_one_spelling()
    ensures { LengthsAreDecimals }
{}

/// Changes that start from the present entries of a tree can be undone, which gives exactly the
/// same tree again.
pub fn changes_are_taken_back()
    ensures { TakenBack }
{}

/// Applying the changes between two trees to the first gives the second.
pub fn changes_lead_from_tree_to_tree()
    ensures { ChangesLead }
{}
