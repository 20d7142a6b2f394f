//! What replies sessions received.
ghost use Rattle.std.specs.Prelude.{◌≡◌, ◌++◌, ◌∷◌, [], OnOk, OnErr};

use history::{Operator, Request, RowReply};
use std::alloc::{AllocError, Global};
use std::marker::Model;

/// A call of a session, as the session recorded it.
#[derive(Debug, Drop)]
pub struct LogEntry<O> {
    /// Its request.
    pub request: Request<O>,
    /// How many rows the session had seen, or had been told about, before.
    pub seen: u32,
    /// The number of the row that the call made.
    pub row: u32,
    pub reply: RowReply,
}

/// The entries of a log, in the order of the calls. Contracts see their list.
#[derive(Debug, Drop)]
pub struct LogEntries<O> {
    items: Vec<LogEntry<O>>,
}

impl<O> Model for LogEntries<O> {
    ghost use Rattle.std.specs.Prelude.{List};
    ghost use Rattle.std.specs.Coded.{codes};
    ghost use Rattle.std.specs.FinMap as map;
    ghost use Rattle.link_tree.specs.Values.{coded_path};
    ghost use Rattle.unit_file.specs.Notices.{line_cmp};
    ghost use Rattle.unit_file.specs.declared.notice.Notice.{Notice};
    ghost use Rattle.shared_admin.specs.declared.log.LogEntry.{LogEntry};

    ghost Value = { List (LogEntry O) };

    ghost coded = { Prim.hlevel (codes, map.code {X = Notice} {R = line_cmp} coded_path (Prim.hlevel codes)) };

    ghost view = { λ entries. entries.items.items };
}

impl<O: Drop> LogEntries<O> {
    /// No entries. Allocates no memory.
    pub fn none(alloc: Global) -> LogEntries<O>
        ensures { result ≡ [] }
    {
        LogEntries {
            items: Vec::new(alloc),
        }
    }

    /// Adds an entry. If memory runs out, the list is unchanged.
    pub fn push(&mut self, entry: LogEntry<O>) -> Result<(), AllocError>
        ensures ok { OnOk result (self.new ≡ self.old ++ entry ∷ []) }
        ensures err { OnErr result (self.new ≡ self.old) }
    {
        Ok(self.items.push(entry)?)
    }

    /// The entries, in order.
    pub fn as_slice(&self) -> &[LogEntry<O>]
        ensures { result.now ≡ self.now }
    {
        &self.items
    }
}

/// The entries of a list, in its order.
impl<O> From<Vec<LogEntry<O>>> for LogEntries<O> {
    ghost from_gives = { λ items entries. entries ≡ items.items };

    fn from(items: Vec<LogEntry<O>>) -> LogEntries<O> {
        LogEntries { items }
    }
}

/// All calls of an operator's session.
#[derive(Debug, Drop)]
pub struct SessionLog<O> {
    pub operator: Operator,
    pub entries: LogEntries<O>,
}

/// The logs of several sessions. Contracts see their list.
#[derive(Debug, Drop)]
pub struct SessionLogs<O> {
    items: Vec<SessionLog<O>>,
}

impl<O> Model for SessionLogs<O> {
    ghost use Rattle.std.specs.Prelude.{List};
    ghost use Rattle.std.specs.Coded.{codes};
    ghost use Rattle.std.specs.FinMap as map;
    ghost use Rattle.link_tree.specs.Values.{coded_path};
    ghost use Rattle.unit_file.specs.Notices.{line_cmp};
    ghost use Rattle.unit_file.specs.declared.notice.Notice.{Notice};
    ghost use Rattle.shared_admin.specs.declared.log.SessionLog.{SessionLog};

    ghost Value = { List (SessionLog O) };

    ghost coded = { Prim.hlevel (codes, map.code {X = Notice} {R = line_cmp} coded_path (Prim.hlevel codes)) };

    ghost view = { λ logs. logs.items.items };
}

impl<O: Drop> SessionLogs<O> {
    /// No logs. Allocates no memory.
    pub fn none(alloc: Global) -> SessionLogs<O>
        ensures { result ≡ [] }
    {
        SessionLogs {
            items: Vec::new(alloc),
        }
    }

    /// Adds a log. If memory runs out, the list is unchanged.
    pub fn push(&mut self, log: SessionLog<O>) -> Result<(), AllocError>
        ensures ok { OnOk result (self.new ≡ self.old ++ log ∷ []) }
        ensures err { OnErr result (self.new ≡ self.old) }
    {
        Ok(self.items.push(log)?)
    }

    /// The logs, in order.
    pub fn as_slice(&self) -> &[SessionLog<O>]
        ensures { result.now ≡ self.now }
    {
        &self.items
    }
}
