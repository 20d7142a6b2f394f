//! Sessions of operators on a shared history, each in a thread of its own.
#![tactic(auto)]

mod asks;
mod attempts;
mod checking;
mod desk;
mod faults;
mod feeding;
mod gate;
mod names;
mod requests;
mod run;
mod session;
mod works;

pub use asks::{Ask, Asks};
pub use checking::{Fed, close_fed};
pub use desk::{AcceptError, Answered, Desk, IssueError, Issued, Job, Unissued};
pub use faults::RunError;
pub use feeding::run_desk;
pub use gate::Gate;
pub use requests::Requests;
pub use run::run_sessions;
pub use session::{Session, Unserved};
pub use works::{Work, Works};
