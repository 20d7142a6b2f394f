//! Beginning, reading and appending to the text of a history.
ghost use Rattle.std.specs.Prelude.{◌≡◌, ◌++◌, ◌<◌, ◌+◌, ◌↔◌, false, Err, IfOk, OnOk, OnErr};
ghost use Rattle.std.specs.List.{list_any, slice_split};
ghost use Rattle.kept_texts.specs.declared.faults.PushError.TheVariants as pushes;
ghost use Rattle.kept_texts.specs.Readings.{is_line_end, count_lines, read_text, ReadsText};
ghost use Rattle.kept_texts.specs.Texts.{sum_of_slots, sum_end, begun_text, begun_parts, begins_comment, are_whole, are_call_lines, run_text, with_summed, runs_text, with_runs, Is, Appends};

use crate::faults::{PushError, TextError};
use crate::inventories::{front_text, sum_of_slots};
use crate::lines::{push_header, push_text_sum};
use crate::reading::{MAX_LINES, MOST_BYTES, Parts, count_lines, read_text};
use crate::runs::{Run, RunList, RunText, Runs};
use crate::sums::{Sum, sum_of};
use crate::text::KeptText;
use crate::words::{Header, RunWords};
use link_tree::Tree;
use std::alloc::{AllocError, Global};

fn begins_comment(line: &[u8]) -> bool
    ensures { result ≡ begins_comment line.now }
{
    line.starts_with(b"#")
}

fn begins_any_comment(lines: &[u8]) -> bool
    ensures { result ≡ list_any begins_comment (slice_split is_line_end lines.now) }
{
    lines
        .split(|b| *b == b'\n')
        .any(|line| begins_comment(line))
}

fn are_whole(lines: &[u8]) -> bool
    ensures { result ≡ are_whole lines.now }
{
    lines.is_empty() || lines.ends_with(b"\n")
}

/// Whether each line has its end, and none begins with `#`.
#[tactic(auto, unfolding(crate::specs::Texts::are_call_lines))]
fn are_call_lines(lines: &[u8]) -> bool
    ensures { result ≡ are_call_lines lines.now }
{
    are_whole(lines) && !begins_any_comment(lines)
}

/// Appends the sum at the end of a line, and LF.
#[tactic(auto, unfolding(crate::specs::Texts::sum_end))]
fn push_sum_end(bytes: &mut Vec<u8>, sum: &Sum) -> Result<(), AllocError>
    ensures { OnOk result (bytes.new.items ≡ bytes.old.items ++ sum_end sum.now) }
{
    push_text_sum(bytes, sum)?;
    Ok(bytes.push(b'\n')?)
}

/// The text of a run.
#[tactic(auto, unfolding(crate::specs::Texts::run_text))]
fn run_text(
    alloc: Global,
    words: &RunWords,
    lines: &[u8],
    tree: &Sum,
) -> Result<RunText, AllocError>
    ensures { IfOk result (λ text. text ≡ run_text words.now lines.now tree.now) }
{
    let mut text = RunText::begin(alloc, words)?;
    text.push_lines(lines)?;
    text.push_end(tree)?;
    Ok(text)
}

impl KeptText {
    /// The text of a history without runs, from its first tree on. Fails only if memory runs out;
    /// over 2⁶² bytes of inventory count as out of memory.
    pub fn begin(alloc: Global, first: &Tree, header: Header) -> Result<KeptText, AllocError>
        ensures { IfOk result (λ text. Is text (begun_text first.now header) (begun_parts first.now header)) }
    {
        let mut bytes = front_text(alloc, first)?;
        if bytes.len() > MOST_BYTES {
            return Err(AllocError);
        }
        let before = count_lines(&bytes);
        push_header(&mut bytes, &header)?;
        let sum = sum_of(&bytes);
        push_sum_end(&mut bytes, &sum)?;
        let runs = Runs {
            all: RunList::none(alloc),
            sum,
        };
        Ok(KeptText {
            bytes,
            parts: Parts {
                header,
                runs,
                before,
                lines: 1,
            },
        })
    }

    /// Reads a text: its lines have their forms, and each sum is that of the bytes before it. Calls
    /// are not looked at.
    ///
    /// # Errors
    ///
    /// `Fault(n, fault)`: line n is the first with a fault, counted from 1 from the beginning of
    /// the text. `OutOfMemory`; over 2⁶² bytes count as such.
    pub fn read(alloc: Global, bytes: Vec<u8>) -> Result<KeptText, TextError>
        ensures parts { ReadsText (λ text. text.parts) result (read_text bytes.items) }
        ensures bytes { IfOk result (λ text. text.bytes.items ≡ bytes.items) }
    {
        let parts = read_text(alloc, &bytes)?;
        Ok(KeptText { bytes, parts })
    }

    /// The whole text.
    pub fn bytes(&self) -> &[u8]
        ensures { result.now ≡ self.now.bytes.items }
    {
        &self.bytes
    }

    pub fn header(&self) -> &Header
        ensures { result.now ≡ self.now.parts.header }
    {
        &self.parts.header
    }

    /// The runs, the oldest first.
    pub fn runs(&self) -> &[Run]
        ensures { result.now ≡ self.now.parts.runs.all }
    {
        self.parts.runs.all.as_slice()
    }

    /// Appends a run: the lines of its calls, each with its end, and the tree that it left. If it
    /// fails, nothing has changed.
    ///
    /// # Errors
    ///
    /// - `BadLines`: the last of the lines has no end, or one begins with `#`.
    /// - `TooManyLines`: there would be over 2,000,000 lines after `== calls`.
    /// - `OutOfMemory`.
    pub fn push_run(&mut self, words: &RunWords, lines: &[u8], tree: &Tree) -> Result<(), PushError>
        ensures ok { OnOk result (Appends self.old self.new words.now (sum_of_slots tree.now) (run_text words.now lines.now (sum_of_slots tree.now))) }
        ensures err { OnErr result (Is self.new self.old.bytes.items self.old.parts) }
        ensures bad { (result ≡ Err pushes.BadLines) ↔ (are_call_lines lines.now ≡ false) }
        ensures many { result ≡ Err pushes.TooManyLines → 2000000 < self.old.parts.lines + (count_lines (run_text words.now lines.now (sum_of_slots tree.now)) + 1) }
    {
        if !are_call_lines(lines) {
            return Err(PushError::BadLines);
        }
        let alloc = *self.bytes.allocator();
        let tree = sum_of_slots(alloc, tree)?;
        let text = run_text(alloc, words, lines, &tree)?;
        self.push_text(words.copy()?, tree, text)
    }

    /// The same runs, with the same header, after another first tree. Fails only if memory runs
    /// out.
    pub fn with_first(&self, alloc: Global, first: &Tree) -> Result<KeptText, AllocError>
        ensures { IfOk result (λ text. Is text (begun_text first.now self.now.parts.header ++ runs_text (begun_parts first.now self.now.parts.header) self.now.parts.runs.all) (with_runs (begun_parts first.now self.now.parts.header) self.now.parts.runs.all)) }
    {
        let mut text = KeptText::begin(alloc, first, self.parts.header.copy()?)?;
        for run in self.runs() {
            text.push_copy(run)?;
        }
        Ok(text)
    }

    fn push_copy(&mut self, run: &Run) -> Result<(), AllocError>
        ensures { OnOk result (Appends self.old self.new run.now.words run.now.tree run.now.text) }
    {
        match self.push_text(run.words.copy()?, run.tree, run.text.copy()?) {
            Ok(()) => Ok(()),
            Err(_) => Err(AllocError),
        }
    }

    /// Appends a run by its text up to its sum.
    fn push_text(&mut self, words: RunWords, tree: Sum, text: RunText) -> Result<(), PushError>
        ensures ok { OnOk result (Appends self.old self.new words tree text) }
        ensures err { OnErr result (Is self.new self.old.bytes.items self.old.parts) }
        ensures bad { result ≡ Err pushes.BadLines → ⊥ }
        ensures many { result ≡ Err pushes.TooManyLines → 2000000 < self.old.parts.lines + (count_lines text + 1) }
    {
        let count = count_lines(text.bytes());
        if count >= MAX_LINES - self.parts.lines {
            return Err(PushError::TooManyLines);
        }
        let sum = self.parts.runs.next_sum(&text);
        let mut added = Vec::from_slice(*self.bytes.allocator(), text.bytes())?;
        push_sum_end(&mut added, &sum)?;
        let run = Run {
            words,
            line: self.parts.before + self.parts.lines + 1,
            calls: text.count_calls(),
            tree,
            text,
        };
        self.push_summed(run, sum, &added)?;
        self.parts.lines += count + 1;
        Ok(())
    }

    /// Appends a run with its sum and what it adds to the text.
    fn push_summed(&mut self, run: Run, sum: Sum, added: &[u8]) -> Result<(), AllocError>
        ensures ok { OnOk result (Is self.new (self.old.bytes.items ++ added.now) (with_summed self.old.parts run sum)) }
        ensures err { OnErr result (Is self.new self.old.bytes.items self.old.parts) }
    {
        let len = self.bytes.len();
        self.bytes.extend_from_slice(added)?;
        match self.parts.runs.push(run, sum) {
            Ok(()) => Ok(()),
            Err(AllocError) => {
                self.bytes.truncate(len);
                Err(AllocError)
            }
        }
    }
}
