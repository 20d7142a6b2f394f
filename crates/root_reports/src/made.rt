//! Calls that are made on a root, or on a tree.
ghost use Rattle.std.specs.Prelude.{◌≡◌, ◌<◌, drop, length, map as list_map, IfErr, IfOk};
ghost use Rattle.link_tree.specs.Differences.{changes_between};
ghost use Rattle.root_access.specs.Failures.{HasReason};
ghost use Rattle.root_access.specs.declared.failure.Failure.TheVariants as failures;
ghost use Rattle.root_access.specs.declared.failure.Reason.TheVariants as reasons;
ghost use Rattle.root_reports.specs.Runs as runs;
ghost use Rattle.unit_script.specs.Machine as machine;
ghost use Rattle.unit_script.specs.Machine.{asked};

use history::{History, MAX_ROWS, Operator, Request, Row};
use link_tree::{Change, Tree};
use partial_runs::run_on_part;
use real_roots::RealDisk;
use root_access::{Failure, capture_failure, forbidden, make_tree};
use root_runs::{Plan, first_of_vendor, has_refused, plan_of};
use root_words::How;
use std::alloc::{AllocError, Global};
use tree_steps::changes_between;
use unit_script::{Action, Call, history_of};

/// What calls do on a tree, or on as much of a root as they look at: their rows, and what changes in
/// all.
#[derive(Drop)]
pub struct Made<'h> {
    /// All rows: those of earlier runs come first.
    pub history: &'h History<Action>,
    /// How many rows are those of earlier runs.
    pub before: usize,
    pub changes: Vec<Change>,
}

impl<'h> Made<'h> {
    /// What all calls of a history do.
    pub fn of(alloc: Global, history: &'h History<Action>) -> Result<Made<'h>, AllocError>
        ensures { IfOk result (λ made. (made.history.now ≡ history.now) × (made.before ≡ 0) × (made.changes.items ≡ changes_between history.now.first (machine.replay history.now.first history.now.rows))) }
    {
        Made::since(alloc, history, 0, history.first())
    }

    /// What the calls of a history do after this number of rows, when its tree was this one.
    pub fn since(
        alloc: Global,
        history: &'h History<Action>,
        before: usize,
        tree: &Tree,
    ) -> Result<Made<'h>, AllocError>
        ensures { IfOk result (λ made. (made.history.now ≡ history.now) × (made.before ≡ before) × (made.changes.items ≡ changes_between tree.now (machine.replay history.now.first history.now.rows))) }
    {
        let changes = changes_between(alloc, tree, history.tree())?;
        Ok(Made {
            history,
            before,
            changes,
        })
    }

    /// The rows of this run.
    pub fn rows(&self) -> &'h [Row<Action>]
        ensures { result.now ≡ runs.rows_of self.now }
    {
        let history = self.history;
        let rows = history.rows();
        match rows.get(self.before..) {
            Some(rows) => rows,
            None => &[],
        }
    }

    /// Whether one of the calls was refused.
    pub fn is_refused(&self) -> bool
        ensures { result ≡ runs.is_refused self.now }
    {
        has_refused(self.rows())
    }

    /// What is done with the changes.
    pub fn plan(&self, how: How) -> Plan
        ensures { result ≡ runs.plan_for how self.now }
    {
        let vendors = first_of_vendor(&self.changes);
        plan_of(how, self.is_refused(), vendors.is_some())
    }

    /// Why nothing beneath /usr may be changed.
    pub fn forbidden(&self, alloc: Global) -> Failure
        ensures { HasReason reasons.Vendor result }
    {
        forbidden(alloc, first_of_vendor(&self.changes))
    }

    /// Makes the changes in the root, all or none.
    pub fn make(&self, alloc: Global, disk: RealDisk<'_>) -> Result<(), Failure> {
        make_tree(alloc, disk, self.history.first(), self.history.tree())
    }
}

/// Makes calls on a tree, one after another.
pub fn made_on(alloc: Global, tree: &Tree, calls: Vec<Call>) -> Result<History<Action>, Failure>
    ensures made { IfOk result (λ history. (history.first ≡ tree.now) × (history.rows ≡ machine.rows_of tree.now calls.items)) }
    ensures full { IfErr result (λ failure. failure ≡ failures.Full → 1000000 < length calls.items) }
{
    if calls.len() > MAX_ROWS {
        return Err(Failure::Full);
    }
    Ok(history_of(alloc, tree.share()?, calls)?)
}

/// A call as histories take it.
fn request_of(call: Call) -> (Operator, Request<Action>)
    ensures { result ≡ asked call }
{
    let Call { operator, request } = call;
    (operator, request)
}

/// The calls as histories take them.
fn requests_of(
    alloc: Global,
    calls: Vec<Call>,
) -> Result<Vec<(Operator, Request<Action>)>, AllocError>
    ensures { IfOk result (λ requests. requests.items ≡ list_map asked calls.items) }
{
    calls
        .into_iter()
        .map(|call| request_of(call))
        .collect(alloc)
}

/// Makes calls on as much of a root as they look at.
pub fn made_in(
    alloc: Global,
    disk: &mut RealDisk<'_>,
    calls: Vec<Call>,
) -> Result<History<Action>, Failure>
    ensures full { IfErr result (λ failure. failure ≡ failures.Full → 1000000 < length calls.items) }
{
    let requests = requests_of(alloc, calls)?;
    if requests.len() > MAX_ROWS {
        return Err(Failure::Full);
    }
    match run_on_part(alloc, disk, &requests) {
        Ok(history) => Ok(history),
        Err(e) => Err(capture_failure(alloc, disk, e)),
    }
}
