//! Which runs are appended to the text of a history.
ghost use Rattle.std.specs.Prelude.{◌≡◌, is_some};
ghost use Rattle.std.specs.List.{list_any};
ghost use Rattle.footprint.specs.Operations.{is_refused};
ghost use Rattle.history.specs.Rows.{toggled};
ghost use Rattle.kept_runs.specs.Runs.{is_accepted, is_refusal, was_refused, is_kept};

use footprint::Answer;
use history::{Row, RowReply};
use unit_script::Action;

/// When a run is appended.
#[derive(Clone, Copy, Debug, PartialEq, Eq)]
pub enum KeepIf {
    /// A command, an undo or a redo was accepted.
    Accepted,
    /// The same, and no call was refused.
    NoneRefused,
}

fn is_refused(answer: &Answer) -> bool
    ensures { result ≡ is_refused answer.now }
{
    match answer {
        Answer::Refused(_) => true,
        Answer::Done(_) | Answer::State(_) | Answer::Name(_) | Answer::Names(_) => false,
    }
}

fn is_refusal(reply: &RowReply) -> bool
    ensures { result ≡ is_refusal reply.now }
{
    match reply {
        RowReply::Answered(answer) => is_refused(answer),
        RowReply::UndoRefused(_) | RowReply::RedoRefused(_) => true,
        RowReply::Undid(_) | RowReply::Redid(_) => false,
    }
}

fn has_toggled(reply: &RowReply) -> bool
    ensures { result ≡ is_some (toggled reply.now) }
{
    match reply {
        RowReply::Undid(_) | RowReply::Redid(_) => true,
        RowReply::Answered(_) | RowReply::UndoRefused(_) | RowReply::RedoRefused(_) => false,
    }
}

/// Whether it is an accepted command, undo or redo.
fn is_accepted(row: &Row<Action>) -> bool
    ensures { result ≡ is_accepted row.now }
{
    row.is_command() || has_toggled(&row.reply)
}

fn was_refused(row: &Row<Action>) -> bool
    ensures { result ≡ was_refused row.now }
{
    is_refusal(&row.reply)
}

fn has_accepted(rows: &[Row<Action>]) -> bool
    ensures { result ≡ list_any is_accepted rows.now }
{
    rows.iter().any(|row| is_accepted(row))
}

fn has_refused(rows: &[Row<Action>]) -> bool
    ensures { result ≡ list_any was_refused rows.now }
{
    rows.iter().any(|row| was_refused(row))
}

impl KeepIf {
    /// Whether a run with these rows is kept.
    pub(crate) fn holds(self, rows: &[Row<Action>]) -> bool
        ensures { result ≡ is_kept self rows.now }
    {
        match self {
            KeepIf::Accepted => has_accepted(rows),
            KeepIf::NoneRefused => has_accepted(rows) && !has_refused(rows),
        }
    }
}
