//! Commands that change single slots: systemctl(1), "Unit File Commands".
#![tactic(auto)]

mod add_to;
mod by_hand;
mod laws;
mod link_units;
mod mask;
mod paths;
mod set_default;

pub use add_to::{AddTo, AddedDependency};
pub use by_hand::{PlaceEntry, RemoveEntry};
pub use laws::{
    dependencies_are_links_of_the_target, entries_are_placed_in_empty_slots,
    entries_are_removed_from_slots, files_are_linked_under_their_names, masks_fill_empty_slots,
    the_default_leads_to_the_units_file, unmask_takes_masks_away,
};
pub use link_units::LinkUnits;
pub use mask::{Mask, Unmask};
pub use paths::Paths;
pub use set_default::SetDefault;
