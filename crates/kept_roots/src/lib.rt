//! The history of a root on a real disk: its directory, and the root's files as a disk that keeps
//! it.
//!
//! No contract can say what files contain: `KeptRealDisk` claims no list of what was done, and
//! tests show what it does.
#![tactic(auto)]

mod earlier;
mod emptied;
mod error;
mod held;
mod history_directory;
mod kept_real_disk;
mod leftovers;
mod opening;

pub use error::{DirectoryFault, HistoryError};
pub use history_directory::{HistoryDirectory, HistoryFile, MOST_BYTES};
pub use kept_real_disk::KeptRealDisk;
pub use opening::{HistoryPlace, make_directory, open_directory};
