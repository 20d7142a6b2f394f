//! Two operations in one: the second after the first, all or nothing.
#![tactic(auto)]

mod laws;
mod then;

pub use laws::then_is_one_after_the_other;
pub use then::Then;
