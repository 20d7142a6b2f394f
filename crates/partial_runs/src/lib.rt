//! Calls on as much of a disk as they look at. They run on a part of what the disk holds, which is
//! captured round after round until it has all that they look at. Then their rows are those on all
//! that the disk holds.
#![tactic(auto)]

mod calls;
mod capturing;
mod rounds;

pub use rounds::run_on_part;
