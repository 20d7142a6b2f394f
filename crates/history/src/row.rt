//! Calls with their replies.
ghost use Rattle.std.specs.Prelude.{◌≡◌, ◌↔◌, IfOk, IsTrue, is_some};
ghost use Rattle.footprint.specs.Operations.{is_refused};
ghost use Rattle.history.specs.Rows.{accepted, survivor, row_refusal, undone_command, row_redo_refusal, bare, answered};

use crate::operator::Operator;
use footprint::{Answer, Changes, Operation, Outcome, Reading};
use std::alloc::{AllocError, Global};

/// An operation, or an undo or a redo of the row of this number.
#[derive(Debug, Drop)]
pub enum Request<O> {
    Do(O),
    Undo(u32),
    Redo(u32),
}

impl<O: Operation> Request<O> {
    /// An equal request. Fails only if memory runs out.
    pub fn copy(&self) -> Result<Request<O>, AllocError>
        ensures { IfOk result (λ request. request ≡ self.now) }
    {
        match self {
            Request::Do(operation) => Ok(Request::Do(operation.copy()?)),
            Request::Undo(n) => Ok(Request::Undo(*n)),
            Request::Redo(n) => Ok(Request::Redo(*n)),
        }
    }

    /// Whether the requests are equal.
    pub fn same(&self, other: &Request<O>) -> bool
        ensures { IsTrue result ↔ (self.now ≡ other.now) }
    {
        match (self, other) {
            (Request::Do(one), Request::Do(other)) => one.same(other),
            (Request::Undo(one), Request::Undo(other)) => one == other,
            (Request::Redo(one), Request::Redo(other)) => one == other,
            (Request::Do(_), Request::Undo(_) | Request::Redo(_))
            | (Request::Undo(_), Request::Do(_) | Request::Redo(_))
            | (Request::Redo(_), Request::Do(_) | Request::Undo(_)) => false,
        }
    }
}

/// Why an undo was refused, in the order in which the reasons are checked.
#[derive(Clone, Copy, Debug, PartialEq, Eq)]
pub enum UndoRefusal {
    /// No row has this number.
    NoSuchRow,
    /// The row isn't an accepted command.
    NotACommand,
    /// The row is already undone, by this row.
    AlreadyUndone(u32),
    /// This row is a later command that survives and looked at what the row changed.
    Blocked(u32),
}

/// Why a redo was refused, in the order in which the reasons are checked.
#[derive(Clone, Copy, Debug, PartialEq, Eq)]
pub enum RedoRefusal {
    /// No row has this number.
    NoSuchRow,
    /// The row isn't an accepted command.
    NotACommand,
    /// The row isn't undone.
    NotUndone,
    /// This row is the first that hinders the redo: a later command that survives and looked at
    /// what the row changed; or an earlier command that changed what the row looked at, and
    /// survives now but did not when the row was undone, or did then and does not now.
    Hindered(u32),
}

/// The reply to a call.
#[derive(Debug, Drop)]
pub enum RowReply {
    Answered(Answer),
    /// The row of this number was undone: its changes were reverted.
    Undid(u32),
    UndoRefused(UndoRefusal),
    /// The row of this number is in effect again, at its own place.
    Redid(u32),
    RedoRefused(RedoRefusal),
}

impl RowReply {
    /// An equal reply. Fails only if memory runs out.
    pub fn copy(&self) -> Result<RowReply, AllocError>
        ensures { IfOk result (λ reply. reply ≡ self.now) }
    {
        match self {
            RowReply::Answered(answer) => Ok(RowReply::Answered(answer.copy()?)),
            RowReply::Undid(n) => Ok(RowReply::Undid(*n)),
            RowReply::UndoRefused(refusal) => Ok(RowReply::UndoRefused(*refusal)),
            RowReply::Redid(n) => Ok(RowReply::Redid(*n)),
            RowReply::RedoRefused(refusal) => Ok(RowReply::RedoRefused(*refusal)),
        }
    }

    /// Whether the replies are equal.
    pub fn same(&self, other: &RowReply) -> bool
        ensures { IsTrue result ↔ (self.now ≡ other.now) }
    {
        match (self, other) {
            (RowReply::Answered(one), RowReply::Answered(other)) => one.same(other),
            (RowReply::Undid(one), RowReply::Undid(other)) => one == other,
            (RowReply::UndoRefused(one), RowReply::UndoRefused(other)) => one == other,
            (RowReply::Redid(one), RowReply::Redid(other)) => one == other,
            (RowReply::RedoRefused(one), RowReply::RedoRefused(other)) => one == other,
            (
                RowReply::Answered(_),
                RowReply::Undid(_)
                | RowReply::UndoRefused(_)
                | RowReply::Redid(_)
                | RowReply::RedoRefused(_),
            )
            | (
                RowReply::Undid(_),
                RowReply::Answered(_)
                | RowReply::UndoRefused(_)
                | RowReply::Redid(_)
                | RowReply::RedoRefused(_),
            )
            | (
                RowReply::UndoRefused(_),
                RowReply::Answered(_)
                | RowReply::Undid(_)
                | RowReply::Redid(_)
                | RowReply::RedoRefused(_),
            )
            | (
                RowReply::Redid(_),
                RowReply::Answered(_)
                | RowReply::Undid(_)
                | RowReply::UndoRefused(_)
                | RowReply::RedoRefused(_),
            )
            | (
                RowReply::RedoRefused(_),
                RowReply::Answered(_)
                | RowReply::Undid(_)
                | RowReply::UndoRefused(_)
                | RowReply::Redid(_),
            ) => false,
        }
    }
}

/// A call, its reply, what it changed and looked at, and, while it is undone, the row that undid
/// it.
#[derive(Debug, Drop)]
pub struct Row<O> {
    pub operator: Operator,
    pub request: Request<O>,
    pub reply: RowReply,
    pub changes: Changes,
    pub reading: Reading,
    pub undone_by: Option<u32>,
}

/// Whether it is a refusal.
pub(crate) fn is_refused(answer: &Answer) -> bool
    ensures { result ≡ is_refused answer.now }
{
    matches!(answer, Answer::Refused(_))
}

impl<O: Operation> Row<O> {
    /// The row of an operation.
    pub(crate) fn answered(operator: Operator, operation: O, outcome: Outcome) -> Row<O>
        ensures { result ≡ answered operator operation outcome }
    {
        Row {
            operator,
            request: Request::Do(operation),
            reply: RowReply::Answered(outcome.answer),
            changes: outcome.changes,
            reading: outcome.reading,
            undone_by: None,
        }
    }

    /// The row of an undo or a redo, which has no changes of its own and looked at nothing.
    pub(crate) fn bare(
        alloc: Global,
        operator: Operator,
        request: Request<O>,
        reply: RowReply,
    ) -> Row<O>
        ensures { result ≡ bare operator request reply }
    {
        Row {
            operator,
            request,
            reply,
            changes: Changes::none(alloc),
            reading: Reading::none(alloc),
            undone_by: None,
        }
    }

    /// Whether it is an accepted command. A question is not a command.
    pub fn is_command(&self) -> bool
        ensures { result ≡ is_some (accepted O.asks self.now.request self.now.reply) }
    {
        match &self.request {
            Request::Do(operation) => match &self.reply {
                RowReply::Answered(answer) => !(operation.asks_only() || is_refused(answer)),
                RowReply::Undid(_)
                | RowReply::UndoRefused(_)
                | RowReply::Redid(_)
                | RowReply::RedoRefused(_) => false,
            },
            Request::Undo(_) | Request::Redo(_) => false,
        }
    }

    /// Whether it is an accepted command that isn't undone.
    pub fn survives(&self) -> bool
        ensures { result ≡ is_some (survivor O.asks self.now) }
    {
        match self.undone_by {
            None => self.is_command(),
            Some(_) => false,
        }
    }

    /// Why it can't be undone, independently of later rows.
    pub fn refusal(&self) -> Option<UndoRefusal>
        ensures { result ≡ row_refusal (accepted O.asks self.now.request self.now.reply) self.now.undone_by }
    {
        if self.is_command() {
            self.undone_by.map(UndoRefusal::AlreadyUndone)
        } else {
            Some(UndoRefusal::NotACommand)
        }
    }

    /// The row that undid it, if it is a command that is undone.
    pub(crate) fn undone_command(&self) -> Option<u32>
        ensures { result ≡ undone_command (accepted O.asks self.now.request self.now.reply) self.now.undone_by }
    {
        if self.is_command() {
            self.undone_by
        } else {
            None
        }
    }

    /// Why it can't be redone, independently of the other rows.
    pub fn redo_refusal(&self) -> Option<RedoRefusal>
        ensures { result ≡ row_redo_refusal (accepted O.asks self.now.request self.now.reply) self.now.undone_by }
    {
        if !self.is_command() {
            return Some(RedoRefusal::NotACommand);
        }
        match self.undone_by {
            None => Some(RedoRefusal::NotUndone),
            Some(_) => None,
        }
    }
}
