//! A tree as files and links on a disk: captured from there, and changed there by steps, of which
//! all or none are made.
#![tactic(auto)]

mod applying;
mod capture_error;
mod captured;
mod capturing;
mod disk;
mod error;
mod following;
mod inventory;
mod leading;
mod partial;
mod path_set;
mod step;
mod taking;
mod taking_parts;

pub use applying::{Left, Stop, apply, look_at_all, make_all, take_all_back};
pub use capture_error::CaptureError;
pub use capturing::capture;
pub use disk::{Disk, Found, Listing, Oddity};
pub use error::{ApplyError, DiskError, StepError};
pub use partial::{Area, Partial};
