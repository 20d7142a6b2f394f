//! Whether the operators' logs match their rows.
ghost use Rattle.std.specs.Prelude.{◌≡◌, ◌≤◌, true, false, Some, All, IfNone, IfSome, length, slice_get};
ghost use Rattle.shared_admin.specs.declared.log.LogEntry.{LogEntry};
ghost use Rattle.shared_admin.specs.Closing.{rows_of, entries_of, Tells, AreTold, DiffersAt, IsTold, IsFirstMismatch};

use crate::log::{LogEntry, SessionLog};
use crate::operators::has_text;
use footprint::Operation;
use history::{Operator, Row};

/// The first operator whose log doesn't match its rows, and the first position at which they
/// differ.
pub(crate) fn mismatch<O: Operation>(
    operators: &[Operator],
    logs: &[SessionLog<O>],
    rows: &[Row<O>],
) -> Option<(Operator, u32)>
    requires { length rows.now ≤ 1000000 }
    ensures none { IfNone result (All (IsTold logs.now rows.now) operators.now) }
    ensures some { IfSome result (λ first. IsFirstMismatch operators.now logs.now rows.now first.0 first.1) }
{
    for operator in operators {
        if let Some(place) = differs_at(operator, entries_of(logs, operator), rows) {
            return Some((*operator, place));
        }
    }
    None
}

/// The entries of the operator's first log.
fn entries_of<'a, O: Operation>(logs: &'a [SessionLog<O>], operator: &Operator) -> &'a [LogEntry<O>]
    ensures { result.now ≡ entries_of logs.now operator.now }
{
    for log in logs {
        if has_text(&log.operator, operator.text()) {
            return log.entries.as_slice();
        }
    }
    &[]
}

/// The first position, from 1 on, at which the entries don't match the operator's rows.
fn differs_at<O: Operation>(
    operator: &Operator,
    entries: &[LogEntry<O>],
    rows: &[Row<O>],
) -> Option<u32>
    requires { length rows.now ≤ 1000000 }
    ensures none { IfNone result (AreTold entries.now (rows_of operator.now 1 rows.now)) }
    ensures some { IfSome result (λ place. DiffersAt place entries.now (rows_of operator.now 1 rows.now)) }
{
    let mut told: usize = 0;
    let mut number: u32 = 1;
    for row in rows {
        if has_text(&row.operator, operator.text()) {
            if !tells_at(entries, told, number, row) {
                return Some(told as u32 + 1);
            }
            told += 1;
        }
        number += 1;
    }
    if told < entries.len() {
        Some(told as u32 + 1)
    } else {
        None
    }
}

/// Whether there is an entry at this position, and it matches the row.
fn tells_at<O: Operation>(entries: &[LogEntry<O>], place: usize, number: u32, row: &Row<O>) -> bool
    ensures yes { result ≡ true → (entry : LogEntry O) × (slice_get entries.now place ≡ Some entry) × Tells entry (number, row.now) }
    ensures no { result ≡ false → (entry : LogEntry O) → slice_get entries.now place ≡ Some entry → ¬ Tells entry (number, row.now) }
{
    match entries.get(place) {
        Some(entry) => tells(entry, number, row),
        None => false,
    }
}

/// Whether an entry matches the row of this number.
fn tells<O: Operation>(entry: &LogEntry<O>, number: u32, row: &Row<O>) -> bool
    ensures yes { result ≡ true → Tells entry.now (number, row.now) }
    ensures no { result ≡ false → ¬ Tells entry.now (number, row.now) }
{
    entry.row == number
        && entry.seen < number
        && entry.request.same(&row.request)
        && entry.reply.same(&row.reply)
}
