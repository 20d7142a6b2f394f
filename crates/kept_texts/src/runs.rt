//! The runs of a history.
ghost use Rattle.std.specs.Prelude.{◌≡◌, [], ◌∷◌, ◌++◌, codes, IfOk, OnOk, OnErr};
ghost use Rattle.kept_texts.specs.Sums.{next_sum};
ghost use Rattle.std.specs.List.{list_any};
ghost use Rattle.kept_texts.specs.Readings.{is_no_space, is_call, count_calls};
ghost use Rattle.kept_texts.specs.Lines.{run_line, end_front};

use crate::lines::{push_end, push_run_line};
use crate::sums::{Sum, next_sum};
use crate::words::RunWords;
use std::alloc::{AllocError, Global};
use std::marker::Model;

fn has_word(line: &[u8]) -> bool
    ensures { result ≡ list_any is_no_space line.now }
{
    line.iter().any(|b| *b != b' ')
}

/// Whether a line is that of a call.
fn is_call(line: &[u8]) -> bool
    ensures { result ≡ is_call line.now }
{
    !line.starts_with(b"#") && has_word(line)
}

fn count_calls(text: &[u8]) -> usize
    ensures { result ≡ count_calls text.now }
{
    text.split(|b| *b == b'\n')
        .filter(|line| is_call(line))
        .count()
}

/// The text of a run, as far as it is summed. Contracts see the bytes.
#[derive(Debug, Drop)]
pub(crate) struct RunText {
    bytes: Vec<u8>,
}

impl Model for RunText {
    ghost use Rattle.std.specs.Prelude.{List, ℕ};

    ghost Value = { List ℕ };

    ghost view = { λ text. text.bytes.items };
}

impl RunText {
    /// The first line of a run.
    pub(crate) fn begin(alloc: Global, words: &RunWords) -> Result<RunText, AllocError>
        ensures { IfOk result (λ text. text ≡ run_line words.now ++ codes "\n") }
    {
        let mut bytes = Vec::new(alloc);
        push_run_line(&mut bytes, words)?;
        bytes.push(b'\n')?;
        Ok(RunText { bytes })
    }

    /// Adds a line.
    pub(crate) fn push_line(&mut self, line: &[u8]) -> Result<(), AllocError>
        ensures { OnOk result (self.new ≡ self.old ++ (line.now ++ codes "\n")) }
    {
        self.bytes.extend_from_slice(line)?;
        Ok(self.bytes.push(b'\n')?)
    }

    /// Adds lines that have their ends.
    pub(crate) fn push_lines(&mut self, lines: &[u8]) -> Result<(), AllocError>
        ensures { OnOk result (self.new ≡ self.old ++ lines.now) }
    {
        self.bytes.extend_from_slice(lines)
    }

    /// Adds the last line up to ` text=`.
    pub(crate) fn push_end(&mut self, tree: &Sum) -> Result<(), AllocError>
        ensures { OnOk result (self.new ≡ self.old ++ end_front tree.now) }
    {
        push_end(&mut self.bytes, tree)
    }

    /// How many lines are calls.
    pub(crate) fn count_calls(&self) -> usize
        ensures { result ≡ count_calls self.now }
    {
        count_calls(self.bytes())
    }

    pub(crate) fn bytes(&self) -> &[u8]
        ensures { result.now ≡ self.now }
    {
        &self.bytes
    }

    /// An equal text.
    pub(crate) fn copy(&self) -> Result<RunText, AllocError>
        ensures { IfOk result (λ text. text ≡ self.now) }
    {
        Ok(RunText {
            bytes: self.bytes.clone()?,
        })
    }
}

/// A run of a history.
#[derive(Debug, Drop)]
pub struct Run {
    pub words: RunWords,
    /// The number of its first line, from the beginning of the history.
    pub line: usize,
    /// How many of its lines are calls: lines without a word aren't.
    pub calls: usize,
    /// The sum of the slots of the tree that the run left.
    pub tree: Sum,
    /// Its lines up to the sum at the end.
    pub(crate) text: RunText,
}

/// Runs, one after another. Contracts see their list.
#[derive(Debug, Drop)]
pub(crate) struct RunList {
    runs: Vec<Run>,
}

impl Model for RunList {
    ghost use Rattle.std.specs.Prelude.{List};
    ghost use Rattle.kept_texts.specs.declared.runs.Run.{Run};

    ghost Value = { List Run };

    ghost view = { λ list. list.runs.items };
}

impl RunList {
    pub(crate) fn none(alloc: Global) -> RunList
        ensures { result ≡ [] }
    {
        RunList {
            runs: Vec::new(alloc),
        }
    }

    pub(crate) fn as_slice(&self) -> &[Run]
        ensures { result.now ≡ self.now }
    {
        &self.runs
    }

    /// Adds a run. If memory runs out, nothing has changed.
    pub(crate) fn push(&mut self, run: Run) -> Result<(), AllocError>
        ensures ok { OnOk result (self.new ≡ self.old ++ run ∷ []) }
        ensures err { OnErr result (self.new ≡ self.old) }
    {
        Ok(self.runs.push(run)?)
    }
}

/// The runs of a history so far, and the sum of the last one, or of the header.
#[derive(Debug, Drop)]
pub(crate) struct Runs {
    pub(crate) all: RunList,
    pub(crate) sum: Sum,
}

impl Runs {
    /// The sum of a run with this text, if it comes next.
    pub(crate) fn next_sum(&self, text: &RunText) -> Sum
        ensures { result ≡ next_sum self.now.sum text.now }
    {
        next_sum(&self.sum, text.bytes())
    }

    /// Adds a run with its sum. If memory runs out, nothing has changed.
    pub(crate) fn push(&mut self, run: Run, sum: Sum) -> Result<(), AllocError>
        ensures ok { OnOk result (self.new ≡ record { all = self.old.all ++ run ∷ []; sum = sum }) }
        ensures err { OnErr result (self.new ≡ self.old) }
    {
        self.all.push(run)?;
        self.sum = sum;
        Ok(())
    }
}
