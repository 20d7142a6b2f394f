//! Roots with a history that is kept: it is found, locked and read, and a run that was cut short is
//! finished.
#![tactic(auto)]

mod ending;
mod finding;
mod headers;
mod kept_root;
mod marks;
mod notes;
mod promise;
mod reading;
mod recovery;
mod setting_aside;

pub use ending::{Stop, after_nothing, end, is_of_nothing};
pub use finding::{
    Taken, directory_of, has_history, has_history_in_root, note_promise, note_promise_of, place_of,
    take, with_history,
};
pub use headers::{adopted, new_history};
pub use kept_root::KeptRoot;
pub use kept_runs::{KeepIf, Kept, OthersError, commit, commit_others};
pub use marks::{variable, words_of_run};
pub use notes::Notes;
pub use reading::{check_length, is_of_other_root, read_kept, shown, unless_of_text};
pub use recovery::{begin_run, disk_after_recovery, finish_before, recover_root, rows_text};
pub use root_access::{
    Context, Done, Failure, bad_call, bad_lines_of, canonical_root, capture_failure, capture_for,
    capture_to_list, captured_in, forbidden, make_tree, name_of, paths_of, patience_of, print,
    print_failure, print_messages, push_everything, push_message, read_text, read_tree,
    refused_word, shown_lines, shown_path, take_root,
};
pub use setting_aside::set_aside;
