//! All unit files of a tree, with their states and presets: systemctl(1), `list-unit-files`,
//! `preset-all` and `status`.
#![tactic(auto)]

mod chosen;
mod laws;
mod listing;
mod mode;
mod order;
mod selection;
mod status;
mod status_text;
mod table;
mod unit_line;

pub use chosen::{Chosen, MAX_LINE, MAX_UNITS, PresetError, PresetFault, preset_names};
pub use laws::names_with_entries_are_listed;
pub use listing::unit_files;
pub use mode::{Mode, names_in_mode};
pub use selection::{selected_lines, selected_names};
pub use status::{UnitStatus, unit_status};
pub use status_text::{PathNote, push_status};
pub use table::push_table;
pub use unit_line::{PresetWord, UnitLine, listed_state_text, unit_lines};
