//! What holds of a root with a history that is found in any state.
#![tactic(auto)]

mod laws;

pub use laws::{
    found_runs_are_whole, kept_paths_are_right, recoveries_mend, roots_are_mended_in_one_way,
    runs_with_rows_are_whole, unsynced_roots_mend,
};
