//! What `unitroot` makes of a command: the calls of a script, messages and statuses.
#![tactic(auto)]

mod answers;
mod bad_words;
mod calls;
mod escapes;
mod line_faults;
mod messages;
mod names;
mod operators;
mod plan;
mod reports;
mod roots;
mod script;
mod statuses;
mod words;

pub use answers::push_answers;
pub use bad_words::{Hint, bad_word_at};
pub use calls::{CallError, CallFault, calls_of};
pub use escapes::push_shown;
pub use line_faults::{BadLine, bad_lines, call_lines, push_fault, push_line_fault};
pub use messages::{push_change_messages, push_messages, push_missing_warning};
pub use names::{Suffix, named};
pub use operators::login_operator;
pub use plan::{Plan, first_of_vendor, is_vendors, plan_of};
pub use reports::{push_refusals, push_report, push_unmade};
pub use script::script_of;
pub use statuses::{count_refused, enabled_status, has_refused};
pub use words::{CallWords, Word};
