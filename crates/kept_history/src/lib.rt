//! A history that is kept with a root: how a run is made on it, what a failure may leave of a run,
//! and how recovery finishes one that was cut short.
#![tactic(auto)]

mod kept_disk;
mod laws;
mod recovery;
mod running;

pub use kept_disk::KeptDisk;
pub use laws::{
    acknowledged_runs_last, recovery_mends, roots_are_always_at_rest, runs_are_promised,
    runs_are_whole, withdrawals_are_whole, withdrawn_runs_last, writes_are_whole,
};
pub use recovery::{FinishError, finish};
pub use running::{RunError, run, run_between};
