//! What others did since the last run.
ghost use Rattle.std.specs.Prelude.{◌≡◌, ◌≢◌, ◌<◌, ◌+◌, ℕ, List, [], Err, true, length, All, IfOk, IfErr, OnOk};
ghost use Rattle.kept_rows.specs.Lines.{CanBeWritten, lines_of_others};
ghost use Rattle.kept_rows.specs.Others.{calls_of_others, rows_with, rows_with_others};
ghost use Rattle.script_words.specs.Words.{lines_text};
ghost use Rattle.tree_steps.specs.Steps.{slot_changes_between};
ghost use Rattle.unit_script.specs.Machine.{replay};
ghost use Rattle.kept_runs.specs.declared.keeping.KeepIf.TheVariants as keeps;
ghost use Rattle.kept_runs.specs.Runs.{added, MadeFirst, IsLeft, IsTooLong};
ghost use Rattle.kept_runs.specs.Others.{IsNotWritable, others_text};
ghost use Rattle.kept_runs.specs.declared.errors.OthersError.TheVariants as others;

use crate::errors::OthersError;
use crate::keeping::KeepIf;
use crate::kept::Kept;
use kept_rows::{calls_of_others, can_be_written, push_lines_of_others};
use kept_texts::RunWords;
use link_tree::{Change, Tree};
use std::alloc::Global;
use tree_steps::slot_changes_between;

/// Refuses a change that no line can say.
fn check_all(alloc: Global, changes: &[Change]) -> Result<(), OthersError>
    ensures all { OnOk result (All CanBeWritten changes.now) }
    ensures fault { IfErr result (λ e. IsNotWritable e changes.now) }
    ensures other { IfErr result (λ e. (e ≢ others.Full) × (e ≢ others.TooManyLines)) }
{
    for change in changes {
        if !can_be_written(alloc, change)? {
            return Err(OthersError::NotWritable(change.path.copy()?));
        }
    }
    Ok(())
}

impl Kept {
    /// Makes the rows of changes that others made, and appends their lines.
    fn take_in(
        &mut self,
        alloc: Global,
        changes: &[Change],
        words: &RunWords,
    ) -> Result<usize, OthersError>
        requires writable { All CanBeWritten changes.now }
        ensures first { self.new.history.first ≡ self.old.history.first }
        ensures limit { self.new.history.limit ≡ self.old.history.limit }
        ensures rows { OnOk result (self.new.history.rows ≡ rows_with self.old.history.first self.old.history.rows (calls_of_others changes.now)) }
        ensures count { IfOk result (λ n. n ≡ length (added self.old.history.rows self.new.history.rows)) }
        ensures before { self.new.is_written ≡ true → self.old.is_written ≡ true }
        ensures left { OnOk result (IsLeft self.old self.new keeps.NoneRefused words.now (lines_text (lines_of_others changes.now))) }
        ensures made { MadeFirst self.old self.new (calls_of_others changes.now) }
        ensures full { result ≡ Err others.Full → self.old.history.limit < length self.old.history.rows + length (calls_of_others changes.now) }
        ensures many { result ≡ Err others.TooManyLines → (self.new.history.rows ≡ rows_with self.old.history.first self.old.history.rows (calls_of_others changes.now)) × IsTooLong self.old.text words.now (lines_text (lines_of_others changes.now)) (replay self.new.history.first self.new.history.rows) }
        ensures fault { IfErr result (λ e. IsNotWritable e changes.now) }
        ensures written { (path : List ℕ) → result ≢ Err (others.NotWritable path) }
    {
        let mut lines = Vec::new(alloc);
        push_lines_of_others(&mut lines, changes)?;
        let calls = calls_of_others(alloc, changes)?;
        match self.make_run(alloc, calls, &lines, words, KeepIf::NoneRefused) {
            Ok(count) => Ok(count),
            Err(error) => Err(OthersError::from(error)),
        }
    }

    /// Takes in what others did: the rows of the operator `outside` by which the slots of the
    /// history's tree become those that were captured are added, and their lines are appended as a
    /// run. If no slot differs, nothing is changed. Returns how many rows were added.
    ///
    /// # Errors
    ///
    /// - `NotWritable`: no line can say what others did at this path. Nothing was changed.
    /// - `Full`: with these rows, the history would have more than it may have.
    /// - `TooManyLines`: with their lines, the text would have over 2,000,000 lines. All rows were
    ///   added.
    /// - `OutOfMemory`.
    ///
    /// Except after `NotWritable`, rows may have been added that the text doesn't have. They are the
    /// first of these.
    pub fn take_in_others(
        &mut self,
        alloc: Global,
        captured: &Tree,
        words: &RunWords,
    ) -> Result<usize, OthersError>
        ensures first { self.new.history.first ≡ self.old.history.first }
        ensures limit { self.new.history.limit ≡ self.old.history.limit }
        ensures rows { OnOk result (self.new.history.rows ≡ rows_with_others self.old.history.first self.old.history.rows captured.now) }
        ensures count { IfOk result (λ n. n ≡ length (added self.old.history.rows self.new.history.rows)) }
        ensures before { self.new.is_written ≡ true → self.old.is_written ≡ true }
        ensures left { OnOk result (IsLeft self.old self.new keeps.NoneRefused words.now (others_text self.old.history.first self.old.history.rows captured.now)) }
        ensures made { MadeFirst self.old self.new (calls_of_others (slot_changes_between (replay self.old.history.first self.old.history.rows) captured.now)) }
        ensures full { result ≡ Err others.Full → self.old.history.limit < length self.old.history.rows + length (calls_of_others (slot_changes_between (replay self.old.history.first self.old.history.rows) captured.now)) }
        ensures many { result ≡ Err others.TooManyLines → (self.new.history.rows ≡ rows_with_others self.old.history.first self.old.history.rows captured.now) × IsTooLong self.old.text words.now (others_text self.old.history.first self.old.history.rows captured.now) (replay self.new.history.first self.new.history.rows) }
        ensures fault { IfErr result (λ e. IsNotWritable e (slot_changes_between (replay self.old.history.first self.old.history.rows) captured.now)) }
        ensures refused { (path : List ℕ) → result ≡ Err (others.NotWritable path) → self.new ≡ self.old }
        ensures none { slot_changes_between (replay self.old.history.first self.old.history.rows) captured.now ≡ [] → self.new ≡ self.old }
    {
        let changes = slot_changes_between(alloc, self.history.tree(), captured)?;
        if changes.is_empty() {
            return Ok(0);
        }
        check_all(alloc, &changes)?;
        self.take_in(alloc, &changes, words)
    }
}
