//! What every run of `unitroot` shares: taking and reading a root, changing it, reading scripts and
//! inventories, printing, and why a run fails.
#![tactic(auto)]

mod bad_words;
mod capturing;
mod context;
mod everything;
mod failure;
mod links;
mod names;
mod passing_over;
mod printing;
mod reading;
mod root;
mod rules;

pub use bad_words::{BadWords, bad_call, bad_lines_of, refused_word};
pub use capturing::{capture_for, capture_to_list};
pub use context::{Context, canonical_root};
pub use everything::push_everything;
pub use failure::{Failure, Reason, capture_failure, read_trouble, shown_path};
pub use names::name_of;
pub use printing::{Done, print, print_failure, print_messages, push_message, shown_lines};
pub use reading::{read_some, read_text, read_tree};
pub use root::{captured_in, forbidden, hold_of, make_tree, paths_of, patience_of, take_root};
pub use rules::RULES;
