//! What the replies of rows mean for the exit status.
ghost use Rattle.std.specs.Prelude.{◌≡◌};
ghost use Rattle.std.specs.List.{list_any, count_by};
ghost use Rattle.root_runs.specs.Statuses.{is_refused, is_state_found, state_of, is_enabled, is_found, is_refused_row, is_enabled_row, is_found_row, enabled_status};

use footprint::{Answer, StateWord};
use history::{Row, RowReply};
use unit_script::{Action, is_success};

pub(crate) fn is_refused(reply: &RowReply) -> bool
    ensures { result ≡ is_refused reply.now }
{
    match reply {
        RowReply::Answered(Answer::Refused(_)) => true,
        RowReply::Answered(Answer::Done(_) | Answer::State(_)) => false,
        RowReply::Answered(Answer::Name(_) | Answer::Names(_)) => false,
        RowReply::Undid(_) => false,
        RowReply::UndoRefused(_) => true,
        RowReply::Redid(_) => false,
        RowReply::RedoRefused(_) => true,
    }
}

/// Whether one of the rows was refused.
pub fn has_refused(rows: &[Row<Action>]) -> bool
    ensures { result ≡ list_any is_refused_row rows.now }
{
    rows.iter().any(|row| is_refused(&row.reply))
}

/// How many of the rows were refused.
pub fn count_refused(rows: &[Row<Action>]) -> usize
    ensures { result ≡ count_by is_refused_row rows.now }
{
    let mut count = 0;
    for row in rows {
        if is_refused(&row.reply) {
            count += 1;
        }
    }
    count
}

fn is_state_found(state: StateWord) -> bool
    ensures { result ≡ is_state_found state }
{
    match state {
        StateWord::NotFound => false,
        StateWord::Masked
        | StateWord::MaskedRuntime
        | StateWord::Alias
        | StateWord::Enabled
        | StateWord::EnabledRuntime
        | StateWord::Linked
        | StateWord::LinkedRuntime
        | StateWord::Static
        | StateWord::Indirect
        | StateWord::Disabled => true,
    }
}

/// The state that a reply is, if it is one.
fn state_of(reply: &RowReply) -> Option<StateWord>
    ensures { result ≡ state_of reply.now }
{
    match reply {
        RowReply::Answered(Answer::State(state)) => Some(*state),
        RowReply::Answered(Answer::Done(_) | Answer::Refused(_)) => None,
        RowReply::Answered(Answer::Name(_) | Answer::Names(_)) => None,
        RowReply::Undid(_) | RowReply::UndoRefused(_) => None,
        RowReply::Redid(_) | RowReply::RedoRefused(_) => None,
    }
}

fn is_enabled(reply: &RowReply) -> bool
    ensures { result ≡ is_enabled reply.now }
{
    match state_of(reply) {
        Some(state) => is_success(state),
        None => false,
    }
}

fn is_found(reply: &RowReply) -> bool
    ensures { result ≡ is_found reply.now }
{
    match state_of(reply) {
        Some(state) => is_state_found(state),
        None => false,
    }
}

fn has_enabled(rows: &[Row<Action>]) -> bool
    ensures { result ≡ list_any is_enabled_row rows.now }
{
    rows.iter().any(|row| is_enabled(&row.reply))
}

fn has_found(rows: &[Row<Action>]) -> bool
    ensures { result ≡ list_any is_found_row rows.now }
{
    rows.iter().any(|row| is_found(&row.reply))
}

/// The exit status of `is-enabled`, by the rows of its questions: 0 if one of the units is enabled
/// in systemctl's sense, 1 if none is but one exists, 4 if none exists. systemctl(1), `is-enabled`.
pub fn enabled_status(rows: &[Row<Action>]) -> u8
    ensures { result ≡ enabled_status rows.now }
{
    if has_enabled(rows) {
        0
    } else if has_found(rows) {
        1
    } else {
        4
    }
}
