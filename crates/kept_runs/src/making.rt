//! Calls that are made on a history with its text.
ghost use Rattle.std.specs.Prelude.{◌≡◌, ◌≢◌, ◌<◌, ◌≤◌, ◌+◌, ℕ, true, false, Err, take, length, IfOk, OnOk, OnErr};
ghost use Rattle.history.specs.Rows.{rows_after};
ghost use Rattle.unit_script.specs.Actions.{asks, meaning};
ghost use Rattle.unit_script.specs.Machine.{asked, replay};
ghost use Rattle.kept_rows.specs.Others.{rows_with};
ghost use Rattle.kept_texts.specs.Texts.{are_call_lines};
ghost use Rattle.kept_runs.specs.Texts.{Says};
ghost use Rattle.kept_runs.specs.Runs.{is_kept, added, MadeFirst, IsAppended, IsLeft, IsTooLong};
ghost use Rattle.kept_runs.specs.declared.errors.MakeError.TheVariants as makes;

use crate::errors::MakeError;
use crate::keeping::KeepIf;
use crate::kept::Kept;
use crate::saying::says;
use history::{History, Request};
use kept_texts::{PushError, RunWords};
use std::alloc::Global;
use unit_script::{Action, Call};

/// Makes one call. If it has no row, the history is as it was.
fn make_call(history: &mut History<Action>, alloc: Global, call: Call) -> Result<(), MakeError>
    ensures first { history.new.first ≡ history.old.first }
    ensures limit { history.new.limit ≡ history.old.limit }
    ensures rows { OnOk result (history.new.rows ≡ rows_after asks meaning history.old.first history.old.rows (asked call)) }
    ensures err { OnErr result (history.new ≡ history.old) }
    ensures full { result ≡ Err makes.Full → length history.old.rows ≡ history.old.limit }
    ensures many { result ≢ Err makes.TooManyLines }
{
    let Call { operator, request } = call;
    match request {
        Request::Do(action) => match history.call(alloc, operator, action) {
            Ok(_number) => Ok(()),
            Err(unrun) => Err(MakeError::from(unrun.why)),
        },
        Request::Undo(n) => match history.undo(alloc, operator, n) {
            Ok(_number) => Ok(()),
            Err(why) => Err(MakeError::from(why)),
        },
        Request::Redo(n) => match history.redo(alloc, operator, n) {
            Ok(_number) => Ok(()),
            Err(why) => Err(MakeError::from(why)),
        },
    }
}

/// Makes calls one after another. After an error, the first of them have rows.
fn make_each(
    history: &mut History<Action>,
    alloc: Global,
    calls: Vec<Call>,
) -> Result<(), MakeError>
    ensures first { history.new.first ≡ history.old.first }
    ensures limit { history.new.limit ≡ history.old.limit }
    ensures rows { OnOk result (history.new.rows ≡ rows_with history.old.first history.old.rows calls.items) }
    ensures made { (n : ℕ) × (history.new.rows ≡ rows_with history.old.first history.old.rows (take n calls.items)) }
    ensures more { OnOk result (length history.old.rows ≤ length history.new.rows) }
    ensures full { result ≡ Err makes.Full → history.old.limit < length history.old.rows + length calls.items }
    ensures many { result ≢ Err makes.TooManyLines }
{
    for call in calls {
        make_call(history, alloc, call)?;
    }
    Ok(())
}

impl Kept {
    /// Appends a run of the last rows, and reads the text again.
    fn push_run(&mut self, alloc: Global, lines: &[u8], words: &RunWords) -> Result<(), MakeError>
        requires lines { are_call_lines lines.now ≡ true }
        ensures history { self.new.history ≡ self.old.history }
        ensures appended { OnOk result (IsAppended self.old.text self.new.text words.now lines.now (replay self.old.history.first self.old.history.rows)) }
        ensures said { OnOk result (Says self.new.text.bytes.items self.old.history.first self.old.history.rows → self.new.is_written ≡ true) }
        ensures err { OnErr result (self.new.is_written ≡ false) }
        ensures full { result ≢ Err makes.Full }
        ensures many { result ≡ Err makes.TooManyLines → IsTooLong self.old.text words.now lines.now (replay self.old.history.first self.old.history.rows) }
    {
        self.is_written = false;
        match self.text.push_run(words, lines, self.history.tree()) {
            Ok(()) => {}
            Err(PushError::BadLines) => unreachable!(),
            Err(PushError::TooManyLines) => return Err(MakeError::TooManyLines),
            Err(PushError::OutOfMemory) => return Err(MakeError::OutOfMemory),
        }
        self.is_written = says(alloc, self.text.bytes(), &self.history)?;
        Ok(())
    }

    /// Makes calls. No text is changed.
    fn make_each(&mut self, alloc: Global, calls: Vec<Call>) -> Result<(), MakeError>
        ensures first { self.new.history.first ≡ self.old.history.first }
        ensures limit { self.new.history.limit ≡ self.old.history.limit }
        ensures rows { OnOk result (self.new.history.rows ≡ rows_with self.old.history.first self.old.history.rows calls.items) }
        ensures more { OnOk result (length self.old.history.rows ≤ length self.new.history.rows) }
        ensures full { result ≡ Err makes.Full → self.old.history.limit < length self.old.history.rows + length calls.items }
        ensures many { result ≢ Err makes.TooManyLines }
        ensures made { MadeFirst self.old self.new calls.items }
        ensures text { self.new.text ≡ self.old.text }
        ensures written { self.new.is_written ≡ false }
    {
        self.is_written = false;
        make_each(&mut self.history, alloc, calls)
    }

    /// Makes calls, and appends their lines as a run if the run is kept. Returns how many rows were
    /// added.
    pub(crate) fn make_run(
        &mut self,
        alloc: Global,
        calls: Vec<Call>,
        lines: &[u8],
        words: &RunWords,
        keep_if: KeepIf,
    ) -> Result<usize, MakeError>
        requires lines { are_call_lines lines.now ≡ true }
        ensures first { self.new.history.first ≡ self.old.history.first }
        ensures limit { self.new.history.limit ≡ self.old.history.limit }
        ensures rows { OnOk result (self.new.history.rows ≡ rows_with self.old.history.first self.old.history.rows calls.items) }
        ensures count { IfOk result (λ n. n ≡ length (added self.old.history.rows self.new.history.rows)) }
        ensures before { self.new.is_written ≡ true → self.old.is_written ≡ true }
        ensures kept { OnOk result (self.new.is_written ≡ true → is_kept keep_if (added self.old.history.rows self.new.history.rows) ≡ true) }
        ensures left { OnOk result (IsLeft self.old self.new keep_if words.now lines.now) }
        ensures made { MadeFirst self.old self.new calls.items }
        ensures full { result ≡ Err makes.Full → self.old.history.limit < length self.old.history.rows + length calls.items }
        ensures many { result ≡ Err makes.TooManyLines → (self.new.history.rows ≡ rows_with self.old.history.first self.old.history.rows calls.items) × IsTooLong self.old.text words.now lines.now (replay self.new.history.first self.new.history.rows) }
    {
        let before = self.history.rows().len();
        let was_written = self.is_written;
        self.make_each(alloc, calls)?;
        let added = &self.history.rows()[before..];
        let count = added.len();
        let is_kept = keep_if.holds(added);
        if was_written && is_kept {
            self.push_run(alloc, lines, words)?;
        }
        Ok(count)
    }
}
