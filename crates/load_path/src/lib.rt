//! Looking up units: systemd.unit(5), "Unit File Load Path".
#![tactic(auto)]

mod cells;
mod finding;
mod following;
mod laws;
mod real_name;

pub use cells::Cells;
pub use finding::{Found, Look, find, find_into};
pub use following::{End, Trail, follow, follow_entry_into, follow_into};
pub use laws::{
    cells_are_listed_once, chains_are_followed, links_dangle, look_ups_agree, look_ups_are_short,
    slots_are_followed, the_first_entry_counts, units_have_files_and_names,
};
pub use real_name::put_in;
