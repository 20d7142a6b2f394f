//! Calls on a part of a tree: if it has all that they look at, they do there what they do on the
//! whole tree.
#![tactic(auto)]

mod laws;

pub use laws::rows_are_those_of_the_whole;
