//! Operations on one slot, for tests of what runs operations; the words by which scripts call them,
//! and the words of replies.
#![tactic(auto)]

mod operation;
mod replies;
mod words;

pub use operation::Step;
pub use replies::{begin_word, push_numbered, push_pair, push_reply, push_row, reply, unit_at};
pub use words::{is, number, operator, parts, request, slot_of, step};
