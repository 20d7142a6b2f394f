//! Questions that a tree answers: systemctl(1), `is-enabled`, `get-default` and
//! `list-dependencies`.
#![tactic(auto)]

mod answering;
mod dependencies;
mod ends;
mod get_default;
mod is_enabled;
mod laws;
mod reaching;
mod step;

pub use dependencies::Dependencies;
pub use get_default::GetDefault;
pub use is_enabled::IsEnabled;
pub use laws::{dependencies_are_least, dependencies_turn_round, words_are_told_where_they_hold};
