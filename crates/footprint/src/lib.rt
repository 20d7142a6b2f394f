//! What operations on a tree look at, what they change, and the laws that they obey.
#![tactic(auto)]

mod answer;
mod changes;
mod laws;
mod net;
mod operation;
mod outcome;
mod same;
mod then;
mod units;

pub use answer::{Answer, StateWord};
pub use changes::Changes;
pub use laws::{
    all_at_once_is_refused_at_the_least_path, commands_may_change_places,
    operations_are_taken_back, outcomes_follow_from_what_is_seen,
    trees_agree_after_the_same_changes,
};
pub use net::NetChanges;
pub use operation::Operation;
pub use outcome::Outcome;
pub use same::same_notices;
pub use tree_access::{Key, Keys, Observation, Reading, Refusal, Seen, Subject, agrees, touches};
pub use unit_file::{Notice, NoticeKey, Notices, Reason};
pub use units::Units;
