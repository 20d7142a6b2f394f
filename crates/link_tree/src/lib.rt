//! Trees of unit files and links: systemd.unit(5), "Unit File Load Path", and the unique text of a
//! tree, its inventory.
#![tactic(auto)]

mod belonging;
mod change;
mod contents;
mod entry;
mod entry_line;
mod inventory;
mod inventory_fault;
mod iter;
mod laws;
mod names;
mod pending;
mod piece;
mod pieces;
mod placed_entry;
mod tree;
mod tree_part;
mod writing;

pub use belonging::{belongs, last_part};
pub use byte_streams::{
    Counters, FromRead, Line, MAX_INTERRUPTIONS, ReadError, ReadFault, Sink, Source, Stop, ToWrite,
    read_line,
};
pub use change::{Change, copy_of};
pub use contents::{Contents, FileError, MAX_FILE};
pub use entry::{Entry, is_null_link};
pub use inventory::{MAX_ENTRIES, MAX_LINE, read_inventory};
pub use inventory_fault::{InventoryError, InventoryFault};
pub use iter::Iter;
pub use laws::{
    changes_are_taken_back, changes_lead_from_tree_to_tree, inventories_are_read_back,
    inventories_are_their_entries, lengths_have_one_spelling, the_first_fault_is_reported,
};
pub use placed_entry::PlacedEntry;
pub use tree::{Tree, push_decimal};
pub use tree_part::TreePart;
pub use unit_file::Notice;
pub use unit_paths::{
    Dependency, MAX_PATH, PathError, Place, Scope, Slot, Target, TargetError, TreePath, canonical,
    links_lead_to_paths, paths_lie_beneath,
};
pub use writing::{WriteError, write_before_inventory, write_inventory};
