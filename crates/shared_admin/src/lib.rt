//! A history that several operators share: plans that are made on snapshots of it at any time, what
//! results from them, and one lock around it.
#![tactic(auto)]

mod close;
mod driving;
mod event;
mod holds;
mod laws;
mod log;
mod operators;
mod shared;
mod snapshot;
mod strangers;
mod telling;

pub use close::{CloseFault, Unclosed, run_fault};
pub use driving::{Kept, SLOTS, drive, empty_slots, happen};
pub use event::{Event, EventReply};
pub use holds::{NewRow, Settled};
pub use laws::{events_have_one_outcome, plans_commit_as_calls};
pub use log::{LogEntries, LogEntry, SessionLog, SessionLogs};
pub use operators::{MAX_SESSIONS, Operators};
pub use shared::{OpenError, SharedAdmin};
pub use snapshot::{Snapshot, plan};
