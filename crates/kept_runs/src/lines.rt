//! The calls of a run, by their lines.
ghost use Rattle.std.specs.Prelude.{◌≡◌, ◌<◌, ◌+◌, ◌++◌, [], ◌∷◌, ℕ, List, Some, Ok, Err, true, length, map as list_map, IfOk, IfErr, OnOk};
ghost use Rattle.std.specs.List.{filter, slice_split};
ghost use Rattle.byte_streams.specs.Reads.{Gives};
ghost use Rattle.script_words.specs.Words.{lines_text};
ghost use Rattle.unit_script.specs.declared.call.Call.{Call as CallSeen};
ghost use Rattle.unit_script.specs.Machine.{replay};
ghost use Rattle.unit_script.specs.Script.{with_call};
ghost use Rattle.unit_script.specs.declared.reason.Reason.{Reason as WhyBad};
ghost use Rattle.kept_rows.specs.Others.{rows_with};
ghost use Rattle.kept_runs.specs.declared.errors.LinesError.TheVariants as faults;
ghost use Rattle.kept_texts.specs.Texts.{are_call_lines};
ghost use Rattle.kept_runs.specs.Lines.{is_line_end, call_of, has_call, call_lines, calls_onto, calls_of_lines, IsLineError};
ghost use Rattle.kept_runs.specs.Runs.{is_kept, added, MadeFirst, IsLeft, IsTooLong};

use crate::errors::LinesError;
use crate::keeping::KeepIf;
use crate::kept::Kept;
use byte_streams::ReadError;
use kept_texts::RunWords;
use std::alloc::{AllocError, Global};
use unit_script::{Call, MAX_LINE, Reason, call_of_line};

/// The calls of lines, and the lines that have one.
#[derive(Debug, Drop)]
struct ReadLines {
    calls: Vec<Call>,
    text: Vec<u8>,
}

/// The call of a line, if it has one.
fn read_call(alloc: Global, line: &[u8]) -> Result<Option<Call>, ReadError<Reason>>
    ensures { Gives (λ x. x) result (call_of line.now) }
{
    if line.len() > MAX_LINE {
        return Err(ReadError::Fault(Reason::LineTooLong));
    }
    call_of_line(alloc, line)
}

impl ReadLines {
    /// Adds a call and its line.
    fn push(&mut self, call: Call, line: &[u8]) -> Result<(), AllocError>
        ensures calls { OnOk result (self.new.calls.items ≡ with_call self.old.calls.items (Some call)) }
        ensures text { OnOk result (self.new.text.items ≡ self.old.text.items ++ lines_text (line.now ∷ [])) }
    {
        self.calls.push(call)?;
        self.text.extend_from_slice(line)?;
        Ok(self.text.push(b'\n')?)
    }

    /// Adds the call of a line, if it has one.
    fn read_line(&mut self, alloc: Global, line: &[u8], number: usize) -> Result<(), LinesError>
        ensures calls { OnOk result ((more : List (List ℕ)) → calls_onto self.old.calls.items number (line.now ∷ more) ≡ calls_onto self.new.calls.items (number + 1) more) }
        ensures text { OnOk result (self.new.text.items ≡ self.old.text.items ++ lines_text (filter has_call (line.now ∷ []))) }
        ensures fault { IfErr result (λ e. (more : List (List ℕ)) → IsLineError e (calls_onto self.old.calls.items number (line.now ∷ more))) }
    {
        match read_call(alloc, line) {
            Ok(None) => Ok(()),
            Ok(Some(call)) => Ok(self.push(call, line)?),
            Err(ReadError::Fault(reason)) => Err(LinesError::Bad(number, reason)),
            Err(ReadError::ReadFault) | Err(ReadError::OutOfMemory) => Err(LinesError::OutOfMemory),
        }
    }
}

/// The parts of a text between its line ends.
fn pieces_of<'a>(alloc: Global, lines: &'a [u8]) -> Result<Vec<&'a [u8]>, AllocError>
    ensures { IfOk result (λ pieces. list_map (λ piece. piece.now) pieces.items ≡ slice_split is_line_end lines.now) }
{
    lines.split(|b| *b == b'\n').collect(alloc)
}

fn read_pieces(alloc: Global, pieces: &[&[u8]]) -> Result<ReadLines, LinesError>
    ensures calls { IfOk result (λ read. calls_onto [] 1 (list_map (λ piece. piece.now) pieces.now) ≡ Ok read.calls.items) }
    ensures text { IfOk result (λ read. read.text.items ≡ lines_text (filter has_call (list_map (λ piece. piece.now) pieces.now))) }
    ensures fault { IfErr result (λ e. IsLineError e (calls_onto [] 1 (list_map (λ piece. piece.now) pieces.now))) }
{
    let mut read = ReadLines {
        calls: Vec::new(alloc),
        text: Vec::new(alloc),
    };
    for (before, line) in pieces.iter().enumerate() {
        match read.read_line(alloc, line, before + 1) {
            Ok(()) => {}
            Err(error) => return Err(error),
        }
    }
    Ok(read)
}

fn read_lines(alloc: Global, lines: &[u8]) -> Result<ReadLines, LinesError>
    ensures calls { IfOk result (λ read. calls_of_lines lines.now ≡ Ok read.calls.items) }
    ensures text { IfOk result (λ read. read.text.items ≡ call_lines lines.now) }
    ensures accepted { IfOk result (λ read. are_call_lines read.text.items ≡ true) }
    ensures fault { IfErr result (λ e. IsLineError e (calls_of_lines lines.now)) }
{
    let pieces = pieces_of(alloc, lines)?;
    read_pieces(alloc, &pieces)
}

impl Kept {
    /// Makes the calls of lines, one after another. A call that is refused is no error: its row has
    /// the reason. The lines that have calls are appended as a run, if the run is kept. Returns
    /// how many rows were added.
    ///
    /// # Errors
    ///
    /// - `Bad`: this line is refused. No call was made.
    /// - `Full`: with all calls, the history would have more rows than it may have.
    /// - `TooManyLines`: with the run, the text would have over 2,000,000 lines. All calls were
    ///   made.
    /// - `OutOfMemory`.
    ///
    /// Except after `Bad`, rows may have been added that the text doesn't have. They are those of the
    /// first calls.
    pub fn make_calls(
        &mut self,
        alloc: Global,
        lines: &[u8],
        words: &RunWords,
        keep_if: KeepIf,
    ) -> Result<usize, LinesError>
        ensures first { self.new.history.first ≡ self.old.history.first }
        ensures limit { self.new.history.limit ≡ self.old.history.limit }
        ensures rows { OnOk result ((calls : List CallSeen) × (calls_of_lines lines.now ≡ Ok calls) × (self.new.history.rows ≡ rows_with self.old.history.first self.old.history.rows calls)) }
        ensures count { IfOk result (λ n. n ≡ length (added self.old.history.rows self.new.history.rows)) }
        ensures before { self.new.is_written ≡ true → self.old.is_written ≡ true }
        ensures kept { OnOk result (self.new.is_written ≡ true → is_kept keep_if (added self.old.history.rows self.new.history.rows) ≡ true) }
        ensures left { OnOk result (IsLeft self.old self.new keep_if words.now (call_lines lines.now)) }
        ensures made { IfOk (calls_of_lines lines.now) (λ calls. MadeFirst self.old self.new calls) }
        ensures bad { (n : ℕ) (reason : WhyBad) → result ≡ Err (faults.Bad n reason) → (calls_of_lines lines.now ≡ Err (n, reason)) × (self.new ≡ self.old) }
        ensures full { result ≡ Err faults.Full → (calls : List CallSeen) × (calls_of_lines lines.now ≡ Ok calls) × (self.old.history.limit < length self.old.history.rows + length calls) }
        ensures many { result ≡ Err faults.TooManyLines → (calls : List CallSeen) × (calls_of_lines lines.now ≡ Ok calls) × (self.new.history.rows ≡ rows_with self.old.history.first self.old.history.rows calls) × IsTooLong self.old.text words.now (call_lines lines.now) (replay self.new.history.first self.new.history.rows) }
    {
        let ReadLines { calls, text } = read_lines(alloc, lines)?;
        match self.make_run(alloc, calls, &text, words, keep_if) {
            Ok(count) => Ok(count),
            Err(error) => Err(LinesError::from(error)),
        }
    }
}
