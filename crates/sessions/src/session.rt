//! A session of one operator.
ghost use Rattle.std.specs.Prelude.{◌≡◌, [], IfErr, OnOk, OnErr, max};
ghost use Rattle.sessions.specs.Sessions.{IsServed, entry_of};

use crate::attempts::{Turn, serve};
use crate::gate::Gate;
use footprint::Operation;
use history::{CallError, Operator, Request};
use shared_admin::{LogEntries, LogEntry, NewRow, SessionLog, SharedAdmin};
use std::alloc::{AllocError, Global};
use std::marker::Model;
use std::sync::Wait;

/// A request that was not served, and why.
#[derive(Debug, Drop)]
pub struct Unserved<O> {
    pub request: Request<O>,
    pub why: CallError,
}

/// A session of an operator. Contracts see the operator, how many rows the session has seen, and
/// its log.
#[derive(Drop)]
pub struct Session<O> {
    operator: Operator,
    front: u32,
    entries: Vec<LogEntry<O>>,
}

impl<O> Model for Session<O> {
    ghost use Rattle.std.specs.Prelude.{List, ℕ};
    ghost use Rattle.std.specs.Coded.{codes, code_by};
    ghost use Rattle.std.specs.FinMap as map;
    ghost use Rattle.link_tree.specs.Values.{coded_path};
    ghost use Rattle.unit_file.specs.Notices.{line_cmp};
    ghost use Rattle.unit_file.specs.declared.notice.Notice.{Notice};
    ghost use Rattle.shared_admin.specs.declared.log.LogEntry.{LogEntry};
    ghost use Rattle.sessions.specs.Sessions.{Opened, opened_parts, of_opened_parts, of_own_opened_parts};

    ghost Value = { Opened O };

    ghost coded = { code_by (List ℕ × ℕ × List (LogEntry O)) (Prim.hlevel (codes, map.code {X = Notice} {R = line_cmp} coded_path (Prim.hlevel codes))) opened_parts of_opened_parts of_own_opened_parts };

    ghost view = { λ session. record { operator = session.operator; front = session.front; entries = session.entries.items } };
}

impl<O: Operation> Session<O> {
    /// A session that has seen no rows and has no entries. Allocates no memory.
    pub fn open(alloc: Global, operator: Operator) -> Session<O>
        ensures { result ≡ record { operator = operator; front = 0; entries = [] } }
    {
        Session {
            operator,
            front: 0,
            entries: Vec::new(alloc),
        }
    }

    /// How many rows it has seen: the number of its last row, or more if `tell` has reported more
    /// since.
    pub fn front(&self) -> u32
        ensures { result ≡ self.now.front }
    {
        self.front
    }

    /// Reports that the session has seen this many rows. A number below what it has seen changes
    /// nothing.
    pub fn tell(&mut self, front: u32)
        ensures { self.new ≡ record { operator = self.old.operator; front = max self.old.front front; entries = self.old.entries } }
    {
        self.front = self.front.max(front);
    }

    /// One entry for each call that was served, in order.
    pub fn entries(&self) -> &[LogEntry<O>]
        ensures { result.now ≡ self.now.entries }
    {
        &self.entries
    }

    /// Its log, as `SharedAdmin::close` takes it. Allocates no memory.
    pub fn into_log(self) -> SessionLog<O>
        ensures { result ≡ record { operator = self.operator; entries = self.entries } }
    {
        let Session {
            operator,
            front: _,
            entries,
        } = self;
        SessionLog {
            operator,
            entries: LogEntries::from(entries),
        }
    }

    /// Serves a request on the shared history, and adds an entry for it to the log. An operation is
    /// planned on a snapshot, the gate is called, and the plan is committed; if the plan is stale, this
    /// is repeated, four times in all, and then the operation is run while the lock is held. For an
    /// undo or a redo the gate is called once, as attempt 1, and then the lock is taken. The row's
    /// reply may be a refusal.
    ///
    /// A request that isn't served is returned, and the session is unchanged. The reason is `Full`
    /// (the history has a million rows) or `OutOfMemory`. The memory for the entry is reserved
    /// before the row is made, so that each row has its entry.
    pub fn call<R: Wait, G: Gate>(
        &mut self,
        rt: &R,
        alloc: Global,
        admin: &SharedAdmin<O>,
        gate: &G,
        request: Request<O>,
    ) -> Result<(), Unserved<O>>
        ensures served { OnOk result (IsServed self.old request self.new) }
        ensures err { OnErr result (self.new ≡ self.old) }
        ensures handed_back { IfErr result (λ left. left.request ≡ request) }
    {
        if let Err(AllocError) = self.entries.reserve(1) {
            return Err(Unserved {
                request,
                why: CallError::OutOfMemory,
            });
        }
        let copy = request.copy();
        let Ok(copy) = copy else {
            return Err(Unserved {
                request,
                why: CallError::OutOfMemory,
            });
        };
        let turn = Turn {
            operator: self.operator,
            call: self.entries.len() as u64 + 1,
        };
        let row = serve(rt, alloc, admin, gate, &turn, request)?;
        let seen = self.front;
        self.front = row.number;
        self.entries.push_reserved(entry_of(copy, seen, row));
        Ok(())
    }
}

/// The entry of a request: how many rows had been seen before, and the row that was made.
fn entry_of<O>(request: Request<O>, seen: u32, row: NewRow) -> LogEntry<O>
    ensures { result ≡ entry_of request seen row }
{
    LogEntry {
        request,
        seen,
        row: row.number,
        reply: row.reply,
    }
}
