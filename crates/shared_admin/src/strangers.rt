//! Whether the logs and the rows belong to the operators that share the history.
ghost use Rattle.std.specs.Prelude.{◌≡◌, true, false, All, IfNone, IfSome};
ghost use Rattle.shared_admin.specs.Closing.{has_log, HasLog, IsOwnLog, AreOwnLogs, IsOwnRow, IsFirstNot, IsFirstStrangeLog, IsFirstStrangeRow};

use crate::log::SessionLog;
use crate::operators::{has_text, is_among};
use footprint::Operation;
use history::{Operator, Row};

/// Whether there is a log of the operator.
fn has_log<O: Operation>(logs: &[SessionLog<O>], operator: &Operator) -> bool
    ensures { result ≡ has_log logs.now operator.now }
{
    logs.iter()
        .any(|log| has_text(&log.operator, operator.text()))
}

/// The first operator without a log.
pub(crate) fn missing<O: Operation>(
    operators: &[Operator],
    logs: &[SessionLog<O>],
) -> Option<Operator>
    ensures none { IfNone result (All (HasLog logs.now) operators.now) }
    ensures some { IfSome result (λ operator. IsFirstNot (HasLog logs.now) operators.now operator) }
{
    for operator in operators {
        if !has_log(logs, operator) {
            return Some(*operator);
        }
    }
    None
}

/// Whether a log belongs to one of the operators, and no earlier log belongs to the same one.
fn is_own_log<O: Operation>(
    operators: &[Operator],
    before: &[SessionLog<O>],
    log: &SessionLog<O>,
) -> bool
    ensures yes { result ≡ true → IsOwnLog operators.now before.now log.now }
    ensures no { result ≡ false → ¬ IsOwnLog operators.now before.now log.now }
{
    is_among(operators, &log.operator) && !has_log(before, &log.operator)
}

/// The operator of the first log that belongs to none of the operators, or to one that has an
/// earlier log.
pub(crate) fn strange_log<O: Operation>(
    operators: &[Operator],
    logs: &[SessionLog<O>],
) -> Option<Operator>
    ensures none { IfNone result (AreOwnLogs operators.now logs.now) }
    ensures some { IfSome result (λ operator. IsFirstStrangeLog operators.now logs.now operator) }
{
    for place in 0..logs.len() {
        let log = &logs[place];
        if !is_own_log(operators, &logs[..place], log) {
            return Some(log.operator);
        }
    }
    None
}

/// The operator of the first row that belongs to none of the operators.
pub(crate) fn strange_row<O: Operation>(operators: &[Operator], rows: &[Row<O>]) -> Option<Operator>
    ensures none { IfNone result (All (IsOwnRow operators.now) rows.now) }
    ensures some { IfSome result (λ operator. IsFirstStrangeRow operators.now rows.now operator) }
{
    for row in rows {
        if !is_among(operators, &row.operator) {
            return Some(row.operator);
        }
    }
    None
}
