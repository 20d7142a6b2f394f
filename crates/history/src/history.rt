//! The calls so far, and the tree that results from them.
ghost use Rattle.std.specs.Prelude.{◌≡◌, ◌≤◌, ◌<◌, ◌+◌, ◌↔◌, [], None, Some, Ok, length, false, true, All, IfOk, IfErr, OnOk, OnErr, vec_len, vec_capacity};
ghost use Rattle.unit_paths.specs.Slots.{is_slot};
ghost use Rattle.link_tree.specs.Trees.{AreFrom, after_changes};
ghost use Rattle.tree_access.specs.declared.key.Key.{Key};
ghost use Rattle.readers.specs.Readers.{reads, IsListed, AreAlike};
ghost use Rattle.history.specs.Logs.{Log};
ghost use Rattle.history.specs.Plans.{planned, AgreesWith, IsCommit};
ghost use Rattle.history.specs.Blocks.{IsFirstToBlock, TellsRefusal};
ghost use Rattle.history.specs.Hindrances.{IsFirstToHinder, TellsRedoRefusal};
ghost use Rattle.history.specs.Toggles.{AllAlternate, AreLinked};
ghost use Rattle.history.specs.Indexes.{Agrees, IsListedIfAccepted};
ghost use Rattle.history.specs.Rows.{blocker, hindrance, readers_of, undo_refusal, redo_refusal, rows_undone, rows_redone, rows_after, survivors, after_commands, replay, run, calls_of, AnswersAlike, AreMarked, MarksAgree, IdleStays, GivesBack, Restores};
ghost use Rattle.history.specs.declared.row.Request.TheVariants.{Do, Undo, Redo};
ghost use Rattle.history.specs.declared.history.CallError.TheVariants.{OutOfMemory};
ghost use Rattle.history.specs.declared.plan.Commit.TheVariants.{Stale};

use crate::operator::Operator;
use crate::plan::{Commit, Plan, Uncommitted};
use crate::row::{RedoRefusal, Request, Row, RowReply, UndoRefusal, is_refused};
use crate::toggles::{first_flipped, relink};
use footprint::{Key, Operation, Outcome, Reading, agrees};
use link_tree::{Change, Tree};
use readers::Readers;
use std::alloc::{AllocError, AllocFailed, Global};
use std::marker::Model;

/// The most rows that a history may have.
pub const MAX_ROWS: usize = 1_000_000;

/// Why a call made no row.
#[derive(Clone, Copy, Debug, PartialEq, Eq)]
pub enum CallError {
    /// The history is full: it has as many rows as it may have.
    Full,
    OutOfMemory,
}

impl From<AllocError> for CallError {
    ghost from_gives = { λ _ e. e ≡ OutOfMemory };

    fn from(_e: AllocError) -> CallError {
        CallError::OutOfMemory
    }
}

impl<T: Drop> From<AllocFailed<T>> for CallError {
    ghost from_gives = { λ _ e. e ≡ OutOfMemory };

    fn from(_e: AllocFailed<T>) -> CallError {
        CallError::OutOfMemory
    }
}

/// An operation that was not run, and why.
#[derive(Debug, Drop)]
pub struct Unrun<O> {
    pub operation: O,
    pub why: CallError,
}

/// All calls on a tree, in order. Contracts see the first tree, the rows, and the limit on their
/// number.
#[derive(Drop)]
pub struct History<O: Operation> {
    first: Tree,
    tree: Tree,
    rows: Vec<Row<O>>,
    readers: Readers,
    links: Vec<u32>,
    limit: usize,
}

impl<O: Operation> Model for History<O> {
    ghost use Rattle.std.specs.Prelude.{List, ℕ};
    ghost use Rattle.std.specs.Coded.{codes, code_by};
    ghost use Rattle.std.specs.FinMap as map;
    ghost use Rattle.link_tree.specs.Trees.{Entries, path_cmp};
    ghost use Rattle.link_tree.specs.Values.{coded_path, coded_entry};
    ghost use Rattle.unit_file.specs.Notices.{line_cmp};
    ghost use Rattle.unit_file.specs.declared.notice.Notice.{Notice};
    ghost use Rattle.history.specs.declared.row.Row.{Row};
    ghost use Rattle.history.specs.Logs.{Log, parts_of, of_parts, of_own_parts};
    ghost use Rattle.history.specs.Rows.{IsKept};
    ghost use Rattle.history.specs.Toggles.{AreLinked};
    ghost use Rattle.history.specs.Indexes.{Agrees};

    ghost Value = { Log O };

    ghost coded = { code_by (Entries × List (Row O) × ℕ) (Prim.hlevel (codes, map.code {R = path_cmp} coded_path coded_entry, map.code {X = Notice} {R = line_cmp} coded_path (Prim.hlevel codes))) parts_of of_parts of_own_parts };

    ghost view = { λ history. record { first = history.first; rows = history.rows.items; limit = history.limit } };

    ghost invariant = { λ history. IsKept O.asks O.meaning history.first history.tree history.rows.items history.limit × Agrees O.asks history.readers history.rows.items × AreLinked history.links.items history.rows.items };
}

impl<O: Operation> History<O> {
    /// A history without calls, which may have a million rows.
    pub fn new(alloc: Global, tree: Tree) -> Result<History<O>, AllocError>
        ensures { IfOk result (λ history. history ≡ record { first = tree; rows = []; limit = 1000000 }) }
    {
        History::with_limit(alloc, tree, MAX_ROWS)
    }

    /// A history without calls, which may have this many rows.
    pub fn with_limit(alloc: Global, tree: Tree, limit: usize) -> Result<History<O>, AllocError>
        requires some { 1 ≤ limit }
        requires few { limit ≤ 1000000 }
        ensures { IfOk result (λ history. history ≡ record { first = tree; rows = []; limit = limit }) }
    {
        Ok(History {
            first: tree.share()?,
            tree,
            rows: Vec::new(alloc),
            readers: Readers::none(alloc),
            links: Vec::new(alloc),
            limit,
        })
    }

    /// The tree before all calls.
    pub fn first(&self) -> &Tree
        ensures { result.now ≡ self.now.first }
    {
        &self.first
    }

    /// The current tree: the first tree with only the surviving commands run on it.
    pub fn tree(&self) -> &Tree
        ensures tree { result.now ≡ replay O.asks O.meaning self.now.first self.now.rows }
        ensures survivors { result.now ≡ after_commands O.meaning (survivors O.asks self.now.rows) self.now.first }
    {
        &self.tree
    }

    /// A row for each call, as a state machine makes them that runs everything again for each call.
    /// In the replay the answer and the changes of a surviving command, and what it looks at, are
    /// those of its row. A row is undone if the last accepted undo or redo that names it is an
    /// undo.
    pub fn rows(&self) -> &[Row<O>]
        ensures rows { result.now ≡ self.now.rows }
        ensures legal { self.now.rows ≡ run O.asks O.meaning self.now.first [] (calls_of self.now.rows) }
        ensures alike { AnswersAlike O.asks O.meaning self.now.first self.now.rows }
        ensures marks { AreMarked self.now.rows }
        ensures few { length self.now.rows ≤ self.now.limit }
        ensures countable { length self.now.rows ≤ 1000000 }
    {
        &self.rows
    }

    /// The first later survivor that looked at what the surviving row n changed.
    pub fn blocker(&self, n: u32) -> Option<u32>
        ensures found { result ≡ blocker O.asks self.now.rows n }
        ensures first { IsFirstToBlock O.asks self.now.rows n result }
    {
        blocker(&self.rows, &self.readers, n)
    }

    /// The first row that hinders a redo of the undone command n: an earlier command that changed
    /// what row n looked at, and survives now but did not when row n was undone, or did then and
    /// does not now; or a later survivor that looked at what row n changed. None if row n isn't an
    /// undone command, or nothing hinders it. Allocates no memory.
    pub fn hindrance(&self, n: u32) -> Option<u32>
        ensures found { result ≡ hindrance O.asks self.now.rows n }
        ensures first { IsFirstToHinder O.asks self.now.rows n result }
    {
        hindrance(&self.rows, &self.links, &self.readers, n)
    }

    /// The survivors that looked at what a change touches, in ascending order. Fails only if memory
    /// runs out.
    pub fn readers(&self, alloc: Global, change: &Change) -> Result<Vec<u32>, AllocError>
        ensures { IfOk result (λ numbers. numbers.items ≡ readers_of O.asks self.now.rows change.now) }
    {
        Ok(self.readers.all(alloc, change)?)
    }

    /// Runs an operation on the tree, and returns the new row's number.
    ///
    /// The error is `Full` if the history has as many rows as it may have, else `OutOfMemory`. It
    /// returns the operation.
    pub fn call(&mut self, alloc: Global, operator: Operator, operation: O) -> Result<u32, Unrun<O>>
        ensures first { self.new.first ≡ self.old.first }
        ensures limit { self.new.limit ≡ self.old.limit }
        ensures rows { OnOk result (self.new.rows ≡ rows_after O.asks O.meaning self.old.first self.old.rows (operator, Do operation)) }
        ensures number { IfOk result (λ n. n ≡ length self.new.rows) }
        ensures idle { OnOk result (IdleStays O.asks O.meaning self.old.first self.old.rows self.new.rows) }
        ensures err { OnErr result (self.new ≡ self.old) }
        ensures handed_back { IfErr result (λ unrun. unrun.operation ≡ operation) }
        ensures full { IfErr result (λ unrun. (unrun.why ≡ CallError.Full) ↔ (length self.old.rows ≡ self.old.limit)) }
        ensures room { OnOk result (length self.old.rows < self.old.limit) }
    {
        if self.is_full() {
            return Err(Unrun {
                operation,
                why: CallError::Full,
            });
        }
        let plan = Plan::make(alloc, operation, self.tree())?;
        match self.add(operator, plan) {
            Ok(n) => Ok(n),
            Err(plan) => Err(Unrun {
                operation: plan.into_op(),
                why: CallError::OutOfMemory,
            }),
        }
    }

    /// Whether the tree agrees with all that a plan looked at: a commit of any other plan is stale.
    /// Allocates no memory.
    pub fn agrees_with(&self, plan: &Plan<O>) -> bool
        ensures { (result ≡ true) ↔ AgreesWith O.asks O.meaning self.now plan.now }
    {
        let reading = plan.reading();
        match agrees(self.tree(), reading) {
            Ok(()) => true,
            Err(_) => false,
        }
    }

    /// Commits a plan. If the tree agrees with all that the plan looked at, its row is added, as a
    /// call of its operation would add it, and its number is returned. Otherwise the plan is stale:
    /// it is returned with the first key at which the tree differs.
    ///
    /// The error is `Full` if the tree agrees and the history has as many rows as it may have, else
    /// `OutOfMemory`. It returns the plan.
    pub fn commit(
        &mut self,
        operator: Operator,
        plan: Plan<O>,
    ) -> Result<Commit<Plan<O>>, Uncommitted<Plan<O>>>
        ensures first { self.new.first ≡ self.old.first }
        ensures limit { self.new.limit ≡ self.old.limit }
        ensures done { IfOk result (λ done. IsCommit O.asks O.meaning self.old operator plan self.new done) }
        ensures err { OnErr result (self.new ≡ self.old) }
        ensures handed_back { IfErr result (λ left. left.plan ≡ plan) }
        ensures full { IfErr result (λ left. (left.why ≡ CallError.Full) ↔ (AgreesWith O.asks O.meaning self.old plan × (length self.old.rows ≡ self.old.limit))) }
    {
        match agrees(self.tree(), plan.reading()) {
            Ok(()) => self.commit_agreed(operator, plan),
            Err(key) => {
                let at = key.copy();
                stale(plan, at)
            }
        }
    }

    /// Adds the row of a plan that the tree agrees with.
    fn commit_agreed(
        &mut self,
        operator: Operator,
        plan: Plan<O>,
    ) -> Result<Commit<Plan<O>>, Uncommitted<Plan<O>>>
        requires agrees { AgreesWith O.asks O.meaning self.old plan }
        ensures first { self.new.first ≡ self.old.first }
        ensures limit { self.new.limit ≡ self.old.limit }
        ensures done { IfOk result (λ done. IsCommit O.asks O.meaning self.old operator plan self.new done) }
        ensures err { OnErr result (self.new ≡ self.old) }
        ensures handed_back { IfErr result (λ left. left.plan ≡ plan) }
        ensures full { IfErr result (λ left. (left.why ≡ CallError.Full) ↔ (length self.old.rows ≡ self.old.limit)) }
    {
        if self.is_full() {
            let why = CallError::Full;
            return Err(Uncommitted { plan, why });
        }
        match self.add(operator, plan) {
            Ok(n) => Ok(Commit::Committed(n)),
            Err(plan) => Err(Uncommitted {
                plan,
                why: CallError::OutOfMemory,
            }),
        }
    }

    /// Whether the history has as many rows as it may have.
    pub fn is_full(&self) -> bool
        ensures full { result ≡ true → length self.now.rows ≡ self.now.limit }
        ensures room { result ≡ false → length self.now.rows < self.now.limit }
    {
        self.rows.len() == self.limit
    }

    /// Adds the row of a plan that the tree agrees with, and makes its changes. If memory runs out,
    /// it returns the plan.
    fn add(&mut self, operator: Operator, plan: Plan<O>) -> Result<u32, Plan<O>>
        requires room { length self.old.rows < self.old.limit }
        requires agrees { AgreesWith O.asks O.meaning self.old plan }
        ensures first { self.new.first ≡ self.old.first }
        ensures limit { self.new.limit ≡ self.old.limit }
        ensures now { plan ≡ planned O.meaning plan.operation (replay O.asks O.meaning self.old.first self.old.rows) }
        ensures rows { OnOk result (self.new.rows ≡ rows_after O.asks O.meaning self.old.first self.old.rows (operator, Do plan.operation)) }
        ensures number { IfOk result (λ n. n ≡ length self.new.rows) }
        ensures idle { OnOk result (IdleStays O.asks O.meaning self.old.first self.old.rows self.new.rows) }
        ensures err { OnErr result (self.new ≡ self.old) }
        ensures handed_back { IfErr result (λ back. back ≡ plan) }
    {
        match make_room(
            &mut self.rows,
            &mut self.links,
            &mut self.readers,
            &mut self.tree,
            &plan.operation,
            &plan.outcome,
        ) {
            Err(AllocError) => Err(plan),
            Ok(()) => {
                let Plan { operation, outcome } = plan;
                self.rows
                    .push_reserved(Row::answered(operator, operation, outcome));
                self.links.push_reserved(0);
                Ok(self.rows.len() as u32)
            }
        }
    }

    /// Undoes row n (rows count from 1) unless that is refused, and returns the new row's number.
    /// If it is refused, the new row has the reason.
    ///
    /// The error is `Full` if the history has as many rows as it may have, else `OutOfMemory`.
    pub fn undo(&mut self, alloc: Global, operator: Operator, n: u32) -> Result<u32, CallError>
        ensures first { self.new.first ≡ self.old.first }
        ensures limit { self.new.limit ≡ self.old.limit }
        ensures rows { OnOk result (self.new.rows ≡ rows_after O.asks O.meaning self.old.first self.old.rows (operator, Undo n)) }
        ensures number { IfOk result (λ m. m ≡ length self.new.rows) }
        ensures idle { OnOk result (IdleStays O.asks O.meaning self.old.first self.old.rows self.new.rows) }
        ensures why { OnOk result (TellsRefusal O.asks self.old.rows self.new.rows n) }
        ensures at_once { OnOk result (GivesBack O.asks O.meaning self.old.first self.old.rows n self.new.rows) }
        ensures err { OnErr result (self.new ≡ self.old) }
        ensures full { IfErr result (λ why. (why ≡ CallError.Full) ↔ (length self.old.rows ≡ self.old.limit)) }
        ensures room { OnOk result (length self.old.rows < self.old.limit) }
    {
        if self.is_full() {
            return Err(CallError::Full);
        }
        Ok(self.add_undo(alloc, operator, n)?)
    }

    /// Adds the row of an undo, and carries the undo out.
    fn add_undo(&mut self, alloc: Global, operator: Operator, n: u32) -> Result<u32, AllocError>
        requires room { length self.old.rows < self.old.limit }
        ensures first { self.new.first ≡ self.old.first }
        ensures limit { self.new.limit ≡ self.old.limit }
        ensures rows { OnOk result (self.new.rows ≡ rows_undone operator self.old.rows n (undo_refusal O.asks self.old.rows n)) }
        ensures number { IfOk result (λ m. m ≡ length self.new.rows) }
        ensures err { OnErr result (self.new ≡ self.old) }
    {
        match refusal(&self.rows, &self.readers, n) {
            Some(refusal) => self.refuse(alloc, operator, n, refusal),
            None => self.take_back(alloc, operator, n),
        }
    }

    fn refuse(
        &mut self,
        alloc: Global,
        operator: Operator,
        n: u32,
        refusal: UndoRefusal,
    ) -> Result<u32, AllocError>
        requires room { length self.old.rows < self.old.limit }
        requires why { undo_refusal O.asks self.old.rows n ≡ Some refusal }
        ensures first { self.new.first ≡ self.old.first }
        ensures limit { self.new.limit ≡ self.old.limit }
        ensures rows { OnOk result (self.new.rows ≡ rows_undone operator self.old.rows n (Some refusal)) }
        ensures number { IfOk result (λ m. m ≡ length self.new.rows) }
        ensures err { OnErr result (self.new ≡ self.old) }
    {
        reserve(&mut self.rows, &mut self.links)?;
        let reply = RowReply::UndoRefused(refusal);
        let row = Row::bare(alloc, operator, Request::Undo(n), reply);
        self.rows.push_reserved(row);
        self.links.push_reserved(0);
        Ok(self.rows.len() as u32)
    }

    fn take_back(&mut self, alloc: Global, operator: Operator, n: u32) -> Result<u32, AllocError>
        requires room { length self.old.rows < self.old.limit }
        requires free { undo_refusal O.asks self.old.rows n ≡ None }
        ensures first { self.new.first ≡ self.old.first }
        ensures limit { self.new.limit ≡ self.old.limit }
        ensures rows { OnOk result (self.new.rows ≡ rows_undone operator self.old.rows n None) }
        ensures number { IfOk result (λ m. m ≡ length self.new.rows) }
        ensures err { OnErr result (self.new ≡ self.old) }
    {
        let place = n as usize - 1;
        let back = self.rows[place].changes.inverse()?;
        reserve(&mut self.rows, &mut self.links)?;
        self.tree.make_changes(back.as_slice())?;
        self.readers.remove(&self.rows[place].reading, n);
        let row = Row::bare(alloc, operator, Request::Undo(n), RowReply::Undid(n));
        self.rows.push_reserved(row);
        let by = self.rows.len() as u32;
        self.rows[place].undone_by = Some(by);
        relink(&mut self.links, n, by);
        Ok(by)
    }

    /// Redoes row n (rows count from 1) unless that is refused, and returns the new row's number. A
    /// redone command is in effect again at its own place: in the replay it and every other
    /// survivor have the answers of their rows. If the redo is refused, the new row has the reason.
    ///
    /// The error is `Full` if the history has as many rows as it may have, else `OutOfMemory`.
    pub fn redo(&mut self, alloc: Global, operator: Operator, n: u32) -> Result<u32, CallError>
        ensures first { self.new.first ≡ self.old.first }
        ensures limit { self.new.limit ≡ self.old.limit }
        ensures rows { OnOk result (self.new.rows ≡ rows_after O.asks O.meaning self.old.first self.old.rows (operator, Redo n)) }
        ensures number { IfOk result (λ m. m ≡ length self.new.rows) }
        ensures idle { OnOk result (IdleStays O.asks O.meaning self.old.first self.old.rows self.new.rows) }
        ensures why { OnOk result (TellsRedoRefusal O.asks self.old.rows self.new.rows n) }
        ensures restored { OnOk result (Restores O.asks O.meaning self.old.first self.old.rows n self.new.rows) }
        ensures err { OnErr result (self.new ≡ self.old) }
        ensures full { IfErr result (λ why. (why ≡ CallError.Full) ↔ (length self.old.rows ≡ self.old.limit)) }
        ensures room { OnOk result (length self.old.rows < self.old.limit) }
    {
        if self.is_full() {
            Err(CallError::Full)
        } else {
            Ok(self.add_redo(alloc, operator, n)?)
        }
    }

    /// Adds the row of a redo, and carries the redo out.
    fn add_redo(&mut self, alloc: Global, operator: Operator, n: u32) -> Result<u32, AllocError>
        requires room { length self.old.rows < self.old.limit }
        ensures first { self.new.first ≡ self.old.first }
        ensures limit { self.new.limit ≡ self.old.limit }
        ensures legal { self.old.rows ≡ run O.asks O.meaning self.old.first [] (calls_of self.old.rows) }
        ensures rows { OnOk result (self.new.rows ≡ rows_redone operator self.old.rows n (redo_refusal O.asks self.old.rows n)) }
        ensures number { IfOk result (λ m. m ≡ length self.new.rows) }
        ensures err { OnErr result (self.new ≡ self.old) }
    {
        match redo_refusal(&self.rows, &self.links, &self.readers, n) {
            Some(refusal) => self.refuse_redo(alloc, operator, n, refusal),
            None => self.put_back(alloc, operator, n),
        }
    }

    fn refuse_redo(
        &mut self,
        alloc: Global,
        operator: Operator,
        n: u32,
        refusal: RedoRefusal,
    ) -> Result<u32, AllocError>
        requires room { length self.old.rows < self.old.limit }
        requires why { redo_refusal O.asks self.old.rows n ≡ Some refusal }
        ensures first { self.new.first ≡ self.old.first }
        ensures limit { self.new.limit ≡ self.old.limit }
        ensures rows { OnOk result (self.new.rows ≡ rows_redone operator self.old.rows n (Some refusal)) }
        ensures number { IfOk result (λ m. m ≡ length self.new.rows) }
        ensures err { OnErr result (self.new ≡ self.old) }
    {
        reserve(&mut self.rows, &mut self.links)?;
        let reply = RowReply::RedoRefused(refusal);
        let row = Row::bare(alloc, operator, Request::Redo(n), reply);
        self.rows.push_reserved(row);
        self.links.push_reserved(0);
        Ok(self.rows.len() as u32)
    }

    fn put_back(&mut self, alloc: Global, operator: Operator, n: u32) -> Result<u32, AllocError>
        requires room { length self.old.rows < self.old.limit }
        requires free { redo_refusal O.asks self.old.rows n ≡ None }
        ensures first { self.new.first ≡ self.old.first }
        ensures limit { self.new.limit ≡ self.old.limit }
        ensures rows { OnOk result (self.new.rows ≡ rows_redone operator self.old.rows n None) }
        ensures number { IfOk result (λ m. m ≡ length self.new.rows) }
        ensures err { OnErr result (self.new ≡ self.old) }
    {
        let place = n as usize - 1;
        reserve(&mut self.rows, &mut self.links)?;
        let again = &self.rows[place];
        make_again(
            alloc,
            &mut self.readers,
            &mut self.tree,
            again.changes.as_slice(),
            &again.reading,
            n,
        )?;
        let row = Row::bare(alloc, operator, Request::Redo(n), RowReply::Redid(n));
        self.rows.push_reserved(row);
        let by = self.rows.len() as u32;
        self.rows[place].undone_by = None;
        relink(&mut self.links, n, by);
        Ok(by)
    }
}

/// A plan that is stale at a key, unless memory ran out when the key was copied.
fn stale<P: Drop>(plan: P, at: Result<Key, AllocError>) -> Result<Commit<P>, Uncommitted<P>>
    ensures stale { IfOk result (λ done. (key : Key) × (at ≡ Ok key) × (done ≡ Stale plan key)) }
    ensures handed_back { IfErr result (λ left. left.plan ≡ plan) }
    ensures why { IfErr result (λ left. left.why ≡ OutOfMemory) }
{
    match at {
        Ok(at) => Ok(Commit::Stale { plan, at }),
        Err(AllocError) => Err(Uncommitted {
            plan,
            why: CallError::OutOfMemory,
        }),
    }
}

/// Lists row n in the index under the keys that its operation looked at, if it is an accepted
/// command.
fn list<O: Operation>(
    alloc: Global,
    readers: &mut Readers,
    operation: &O,
    outcome: &Outcome,
    n: u32,
) -> Result<(), AllocError>
    requires { (k : Key) → reads readers.old k n ≡ false }
    ensures ok { OnOk result (IsListedIfAccepted O.asks operation.now outcome.now n readers.old readers.new) }
    ensures err { OnErr result (AreAlike readers.old readers.new) }
{
    if operation.asks_only() || is_refused(&outcome.answer) {
        Ok(())
    } else {
        readers.add(alloc, &outcome.reading, n)
    }
}

/// Reserves memory for a row and its link. If memory runs out, nothing is changed.
fn reserve<O: Operation>(rows: &mut Vec<Row<O>>, links: &mut Vec<u32>) -> Result<(), AllocError>
    ensures rows { rows.new.items ≡ rows.old.items }
    ensures links { links.new.items ≡ links.old.items }
    ensures row_room { OnOk result (vec_len rows.new < vec_capacity rows.new) }
    ensures link_room { OnOk result (vec_len links.new < vec_capacity links.new) }
{
    rows.reserve(1)?;
    links.reserve(1)
}

/// Reserves memory for a row and its link, lists the row in the index, and makes its changes to the
/// tree; the row itself is not added yet. If memory runs out, nothing is changed.
fn make_room<O: Operation>(
    rows: &mut Vec<Row<O>>,
    links: &mut Vec<u32>,
    readers: &mut Readers,
    tree: &mut Tree,
    operation: &O,
    outcome: &Outcome,
) -> Result<(), AllocError>
    requires slots { All (λ change. is_slot change.path ≡ true) outcome.now.changes }
    requires from { AreFrom tree.old outcome.now.changes }
    requires few { length rows.old.items < 1000000 }
    requires fresh { (k : Key) → reads readers.old k (length rows.old.items + 1) ≡ false }
    ensures items { rows.new.items ≡ rows.old.items }
    ensures links { links.new.items ≡ links.old.items }
    ensures room { OnOk result (vec_len rows.new < vec_capacity rows.new) }
    ensures link_room { OnOk result (vec_len links.new < vec_capacity links.new) }
    ensures listed { OnOk result (IsListedIfAccepted O.asks operation.now outcome.now (length rows.old.items + 1) readers.old readers.new) }
    ensures unlisted { OnErr result (AreAlike readers.old readers.new) }
    ensures after { OnOk result (tree.new ≡ after_changes outcome.now.changes tree.old) }
    ensures err { OnErr result (tree.new ≡ tree.old) }
{
    reserve(rows, links)?;
    let alloc = *rows.allocator();
    let n = rows.len() as u32 + 1;
    list(alloc, readers, operation, outcome, n)?;
    match tree.make_changes(outcome.changes.as_slice()) {
        Ok(()) => Ok(()),
        Err(error) => {
            readers.remove(&outcome.reading, n);
            Err(error)
        }
    }
}

/// Why an undo of row n is refused, if it is.
fn refusal<O: Operation>(rows: &[Row<O>], readers: &Readers, n: u32) -> Option<UndoRefusal>
    requires few { length rows.now ≤ 1000000 }
    requires agrees { Agrees O.asks readers.now rows.now }
    ensures { result ≡ undo_refusal O.asks rows.now n }
{
    let place = n as usize;
    if place == 0 || place > rows.len() {
        return Some(UndoRefusal::NoSuchRow);
    }
    match rows[place - 1].refusal() {
        Some(refusal) => Some(refusal),
        None => match blocker(rows, readers, n) {
            Some(m) => Some(UndoRefusal::Blocked(m)),
            None => None,
        },
    }
}

/// The first later survivor that looked at what the surviving row n changed.
fn blocker<O: Operation>(rows: &[Row<O>], readers: &Readers, n: u32) -> Option<u32>
    requires few { length rows.now ≤ 1000000 }
    requires agrees { Agrees O.asks readers.now rows.now }
    ensures { result ≡ blocker O.asks rows.now n }
{
    let place = n as usize;
    if place == 0 || place > rows.len() {
        return None;
    }
    let row = &rows[place - 1];
    if row.survives() {
        readers.first_after(row.changes.as_slice(), n)
    } else {
        None
    }
}

/// Lists row n in the index again, and makes its changes again; its row is still marked as undone.
/// If memory runs out, nothing is changed.
fn make_again(
    alloc: Global,
    readers: &mut Readers,
    tree: &mut Tree,
    changes: &[Change],
    reading: &Reading,
    n: u32,
) -> Result<(), AllocError>
    requires slots { All (λ change. is_slot change.path ≡ true) changes.now }
    requires from { AreFrom tree.old changes.now }
    requires unlisted { (k : Key) → reads readers.old k n ≡ false }
    ensures listed { OnOk result (IsListed reading.now n readers.old readers.new) }
    ensures alike { OnErr result (AreAlike readers.old readers.new) }
    ensures after { OnOk result (tree.new ≡ after_changes changes.now tree.old) }
    ensures err { OnErr result (tree.new ≡ tree.old) }
{
    readers.add(alloc, reading, n)?;
    match tree.make_changes(changes) {
        Ok(()) => Ok(()),
        Err(error) => {
            readers.remove(reading, n);
            Err(error)
        }
    }
}

/// Why a redo of row n is refused, if it is.
fn redo_refusal<O: Operation>(
    rows: &[Row<O>],
    links: &[u32],
    readers: &Readers,
    n: u32,
) -> Option<RedoRefusal>
    requires few { length rows.now ≤ 1000000 }
    requires agrees { Agrees O.asks readers.now rows.now }
    requires linked { AreLinked links.now rows.now }
    requires marks { MarksAgree rows.now }
    requires alternate { AllAlternate rows.now }
    ensures { result ≡ redo_refusal O.asks rows.now n }
{
    let place = n as usize;
    if place == 0 || place > rows.len() {
        return Some(RedoRefusal::NoSuchRow);
    }
    match rows[place - 1].redo_refusal() {
        Some(refusal) => Some(refusal),
        None => match hindrance(rows, links, readers, n) {
            Some(m) => Some(RedoRefusal::Hindered(m)),
            None => None,
        },
    }
}

/// The first row that hinders a redo of row n, if it is an undone command.
fn hindrance<O: Operation>(rows: &[Row<O>], links: &[u32], readers: &Readers, n: u32) -> Option<u32>
    requires few { length rows.now ≤ 1000000 }
    requires agrees { Agrees O.asks readers.now rows.now }
    requires linked { AreLinked links.now rows.now }
    requires marks { MarksAgree rows.now }
    requires alternate { AllAlternate rows.now }
    ensures { result ≡ hindrance O.asks rows.now n }
{
    let place = n as usize;
    if place == 0 || place > rows.len() {
        return None;
    }
    let undone = &rows[place - 1];
    match undone.undone_command() {
        None => None,
        Some(by) => match first_flipped(rows, links, by, undone.reading.as_slice(), n) {
            Some(k) => Some(k),
            None => readers.first_after(undone.changes.as_slice(), n),
        },
    }
}
