//! Commands that take a root as a whole, and make no calls: its inventory, how it differs, making
//! it as an inventory says, its units and what each is; its history begins or is removed.
#![tactic(auto)]

mod forgetting;
mod json;
mod keeping;
mod listing;
mod makers;
mod status;
mod whole;

pub use forgetting::forget;
pub use keeping::keep;
pub use listing::list_unit_files;
pub use status::show_status;
pub use whole::{apply_inventory, report_differences, write_capture};
