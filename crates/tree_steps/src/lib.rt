//! The changes from one tree to another, and the steps that make them, one path at a time.
#![tactic(auto)]

mod differing;
mod net;
mod same;
mod slots;
mod steps;
mod turn;

pub use differing::changes_between;
pub use same::are_same;
pub use slots::slot_changes_between;
pub use steps::steps_between;
