//! Whether a run served exactly the requests that were passed to it.
ghost use Rattle.std.specs.Prelude.{◌≡◌, ◌≤◌, [], true, false, Some, None, All, IfOk, IfErr, IfNone, IfSome, length, slice_get};
ghost use Rattle.history.specs.Rows.{run, calls_of};
ghost use Rattle.shared_admin.specs.declared.log.LogEntry.{LogEntry};
ghost use Rattle.sessions.specs.Desks.{first_amiss};
ghost use Rattle.sessions.specs.Fed.{asked, IsAsked, HasCountable, DiffersFirstAt, IsFirstUnasked, IsUnserved, HasFed};
ghost use Rattle.sessions.specs.Faults.{IsUnfed};
ghost use Rattle.sessions.specs.Sessions.{requests_of};

use crate::asks::Ask;
use crate::desk::{Answered, Desk};
use crate::names::has_text;
use footprint::Operation;
use history::{History, Operator};
use shared_admin::{CloseFault, LogEntry, SessionLog, SessionLogs, SharedAdmin, Unclosed};

/// What remains at the end of a run: the desk, the logs, and all answers.
#[derive(Drop)]
pub struct Fed<O> {
    pub desk: Desk,
    pub logs: SessionLogs<O>,
    pub answers: Vec<Answered>,
}

/// Closes a run. If the logs match the rows, checks whether each log matches its operator's
/// requests, and whether the desk accepts each answer and has one for each job. `run_desk` ends
/// with this; code that passes requests to sessions in another way can use it too. History and logs
/// are always returned, the logs unchanged.
///
/// Fails with the first that applies of what `CloseFault` lists; or with `Mismatch` for the first
/// log that doesn't match its operator's requests; or with `Mismatch` at position 0 for the first
/// answer that the desk rejects, or else for the first job without an answer.
pub fn close_fed<O: Operation>(
    admin: SharedAdmin<O>,
    fed: Fed<O>,
    asks: &[Ask<O>],
) -> Result<(History<O>, SessionLogs<O>), Unclosed<History<O>, SessionLogs<O>>>
    ensures fed { IfOk result (λ r. HasFed admin.first admin.operators asks.now r.0 r.1) }
    ensures legal { IfOk result (λ r. r.0.rows ≡ run O.asks O.meaning r.0.first [] (calls_of r.0.rows)) }
    ensures answered { IfOk result (λ r. first_amiss fed.desk.issued fed.answers.items ≡ None) }
    ensures logs { IfOk result (λ r. r.1 ≡ fed.logs) }
    ensures unfed { IfErr result (IsUnfed O.asks O.meaning admin.first admin.operators fed.desk.issued fed.answers.items asks.now) }
    ensures logs_back { IfErr result (λ left. left.logs ≡ fed.logs) }
{
    let Fed {
        mut desk,
        logs,
        answers,
    } = fed;
    match admin.close(logs) {
        Err(left) => Err(left),
        Ok((history, logs)) => {
            // (the number of its rows fits, and so does the number of the matching entries)
            let _rows = history.rows();
            match amiss(&mut desk, &answers, logs.as_slice(), asks) {
                None => Ok((history, logs)),
                Some(first) => Err(Unclosed {
                    fault: CloseFault::Mismatch(first.0, first.1),
                    history,
                    logs,
                }),
            }
        }
    }
}

/// The operator of the first log that doesn't match the operator's requests, with the first
/// position at which it differs; or else the operator for whom the answers don't match the desk,
/// with position 0.
fn amiss<O: Operation>(
    desk: &mut Desk,
    answers: &[Answered],
    logs: &[SessionLog<O>],
    asks: &[Ask<O>],
) -> Option<(Operator, u32)>
    requires { All HasCountable logs.now }
    ensures none { IfNone result (All (IsAsked asks.now) logs.now) }
    ensures answered { IfNone result (first_amiss desk.old.issued answers.now ≡ None) }
    ensures some { IfSome result (λ first. IsUnserved desk.old.issued answers.now asks.now logs.now first.0 first.1) }
{
    match first_unasked(logs, asks) {
        Some(first) => Some(first),
        None => match settle(desk, answers) {
            Some(operator) => Some((operator, 0)),
            None => None,
        },
    }
}

/// Hands the answers to the desk one after another. Returns the operator of the first answer that
/// the desk rejects, else of the first job that has no answer.
fn settle(desk: &mut Desk, answers: &[Answered]) -> Option<Operator>
    ensures { result ≡ first_amiss desk.old.issued answers.now }
{
    for answer in answers {
        if desk.accept(answer).is_err() {
            return Some(answer.operator);
        }
    }
    desk.first_outstanding()
}

/// The operator of the first log that doesn't match the operator's requests, and the first position
/// at which it differs.
fn first_unasked<O: Operation>(logs: &[SessionLog<O>], asks: &[Ask<O>]) -> Option<(Operator, u32)>
    requires { All HasCountable logs.now }
    ensures none { IfNone result (All (IsAsked asks.now) logs.now) }
    ensures some { IfSome result (λ first. IsFirstUnasked asks.now logs.now first.0 first.1) }
{
    for log in logs {
        match unasked_at(&log.operator, log.entries.as_slice(), asks) {
            Some(place) => return Some((log.operator, place)),
            None => {}
        }
    }
    None
}

/// The first position, from 1 on, at which entries differ from an operator's requests: the request
/// is another, or an entry is missing or surplus.
fn unasked_at<O: Operation>(
    operator: &Operator,
    entries: &[LogEntry<O>],
    asks: &[Ask<O>],
) -> Option<u32>
    requires { length entries.now ≤ 1000000 }
    ensures none { IfNone result (requests_of entries.now ≡ asked operator.now asks.now) }
    ensures some { IfSome result (λ place. DiffersFirstAt place (requests_of entries.now) (asked operator.now asks.now)) }
{
    let mut place: usize = 0;
    for ask in asks {
        if has_text(&ask.operator, operator.text()) {
            if !asks_at(entries, place, ask) {
                return Some(place as u32 + 1);
            }
            place += 1;
        }
    }
    if place < entries.len() {
        Some(place as u32 + 1)
    } else {
        None
    }
}

/// Whether there is an entry at this position, and it is of this request.
fn asks_at<O: Operation>(entries: &[LogEntry<O>], place: usize, ask: &Ask<O>) -> bool
    ensures yes { result ≡ true → (entry : LogEntry O) × (slice_get entries.now place ≡ Some entry) × (entry.request ≡ ask.now.request) }
    ensures no { result ≡ false → (entry : LogEntry O) → slice_get entries.now place ≡ Some entry → ¬ (entry.request ≡ ask.now.request) }
{
    match entries.get(place) {
        Some(entry) => entry.request.same(&ask.request),
        None => false,
    }
}
