//! What can be looked at in a tree, and what may be placed there.
#![tactic(auto)]

mod compare;
mod key;
mod keys;
mod merging;
mod reading;
mod refusal;
mod same;
mod seeing;
mod touching;

pub use key::Key;
pub use keys::Keys;
pub use reading::{Observation, Reading, Seen, agrees};
pub use refusal::{Refusal, Subject};
pub use seeing::copy_entry;
pub use touching::touches;
