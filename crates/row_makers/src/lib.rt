//! Which row of a history made what is at a path.
#![tactic(auto)]

mod makers;

pub use makers::maker_of;
