//! Why a run fails, and its status.
ghost use Rattle.std.specs.Prelude.{◌≡◌, string_bytes, IfOk};
ghost use Rattle.root_access.specs.Statuses.{status_of};
ghost use Rattle.root_access.specs.Failures.{of_history, of_kept, of_lines, shown_text, IsAt, HasReason, reason_of as reason_of_oddity, IsOfRoot, IsOfCapture, IsOfStep};
ghost use Rattle.root_access.specs.declared.failure.Failure.TheVariants as failures;

use crate::bad_words::{BadWords, refused_word};
use crate::links::{shown_target, with_link};
use crate::rules::RULES;
use disk::{CaptureError, Oddity, StepError};
use kept_roots::HistoryError;
use kept_runs::{KeptError, LinesError};
use kept_texts::LineFault;
use link_tree::{Change, InventoryError, TreePath};
use real_roots::{RealDisk, Trouble};
use root_runs::push_shown;
use std::alloc::{AllocError, AllocFailed, Global};
use std::io;
use thiserror::Error;
use unit_script::Reason as UnkeptReason;

/// Why nothing could be captured or changed at a path.
#[derive(Clone, Copy, Debug, PartialEq, Eq, Error)]
pub enum Reason {
    #[error("a directory instead of a unit")]
    Directory,
    #[error("neither a file nor a link")]
    Special,
    #[error("larger than 1,048,576 bytes")]
    TooLarge,
    #[error("its target is empty, too long, not UTF-8, or has a TAB or a LF")]
    BadTarget,
    #[error("no directory, but units or links belong into it")]
    NoDirectory,
    #[error("changed meanwhile")]
    Changed,
    #[error("the vendor's: it is changed only with --vendor")]
    Vendor,
}

/// Why the program failed. Its text is what standard error gets.
#[derive(Debug, Drop, Error)]
pub enum Failure {
    /// The root can't be used.
    #[error("{0}")]
    Root(Trouble),
    /// No root is given.
    #[error("no root: give --root=DIR, or set UNITROOT_ROOT (for the running system, --root=/)")]
    NoRoot,
    /// What is at this path, or would be changed there, stops the run.
    #[error("{0}: {1}")]
    At(String, Reason),
    #[error("over 65,536 entries")]
    TooMany,
    #[error("an entry is beneath another, or in the way of a directory of units")]
    BadShape,
    /// Words of the command line that are no call.
    #[error("bad words")]
    BadWords(BadWords),
    /// The bad lines of a script.
    #[error("bad lines")]
    BadLines(Vec<BadWords>),
    #[error("bad operator: 1 to 32 of a to z, 0 to 9 and -")]
    BadOperator,
    #[error("UNITROOT_OPERATOR: bad operator: 1 to 32 of a to z, 0 to 9 and -")]
    BadOperatorAround,
    #[error("no history: unitroot --root=DIR keep begins one")]
    NoHistory,
    #[error("there is a history already: keep --anew begins again")]
    HasHistory,
    /// With `--history`, a root that has a history in /var/lib/unitroot too.
    #[error("the root has a history of its own: forget removes it")]
    HasHistoryInRoot,
    /// The directory of the history can't be used.
    #[error("{0}")]
    History(HistoryError),
    /// The history can't be read.
    #[error("{0}")]
    Unreadable(KeptError),
    /// This line of it, from the beginning of the file, is none of a call.
    #[error("history: line {0}: {1}")]
    BadCall(usize, UnkeptReason),
    /// A run of it was made by other rules.
    #[error("history: run {0} was made by rules {1}, and these are rules {2}: keep --anew begins again")]
    OtherRules(usize, u32, u32),
    #[error("history: row {0} has another result under these rules: keep --anew begins again")]
    OtherRows(usize),
    #[error("a run is promised, but its history is gone: keep --anew begins again")]
    OnlyPromised,
    #[error("a run is promised: recover finishes it")]
    StillPromised,
    /// One of the two was replaced since the run was promised.
    #[error("history.next doesn't go on where history ends: remove it, or rename it to history")]
    OtherPromise,
    /// The history was begun for the root at this path.
    #[error("the history is that of {0}: --adopt takes it over")]
    OtherRoot(String),
    #[error("others changed the root since the last run, by {0} rows: --adopt takes them in")]
    ManyOthers(usize),
    #[error("over 100,000 rows in the history: keep --anew begins again")]
    ManyRows,
    /// The history would have over this number of bytes.
    #[error("over {0} bytes in the history: keep --anew begins again, --history=DIR may have 2 GiB")]
    ManyBytes(u64),
    /// SOURCE_DATE_EPOCH, or the clock, is of no year from 1970 to 9999.
    #[error("the time of the run is none of the years 1970 to 9999")]
    BadTime,
    #[error("over 2,000,000 lines in the history: keep --anew begins again")]
    ManyLines,
    /// The history was not begun, or a run failed, after it was promised.
    #[error("promised: the next run finishes it{0}")]
    Promised(String),
    #[error("outside is the name of others: no call can have it as its operator")]
    OutsideAsOperator,
    #[error("an undo or a redo in a script: --rows=history or --rows=run says whose rows it names")]
    RowsUnsaid,
    #[error("no history, so --rows=history names no rows")]
    NoRowsOfHistory,
    /// The history has no row of this number.
    #[error("no such row: {0}")]
    NoSuchRow(u32),
    #[error("more than 1,000,000 calls")]
    Full,
    /// A line of a run can't be kept.
    #[error("line {0} of the run can't be kept: {1}")]
    BadLine(usize, UnkeptReason),
    /// Standard input could not be read.
    #[error("standard input: read fault")]
    Input,
    #[error("standard input: larger than 1,048,576 bytes")]
    InputTooLarge,
    /// A file could not be read.
    #[error("{0}: {1}")]
    File(String, io::Error),
    /// A file, or standard input, is no inventory.
    #[error("{0}: {1}")]
    Inventory(String, InventoryError),
    /// There are too many units for one call, or their names are too long.
    #[error("{0}")]
    Units(String),
    /// After N of M steps the one at this path failed, and those before it could not be reversed.
    #[error("{2}: failed after {0} of {1} steps, which could not be reversed{3}")]
    HalfDone(usize, usize, String, String),
    /// All N steps were made, and may not last.
    #[error("{0}: all {1} steps were made, and may not last")]
    NotSettled(Trouble, usize),
    /// All was done on a root with a history, and may not last.
    #[error("{0}: all was done, and may not last")]
    Unsynced(Trouble),
    /// All steps were reversed, but a directory that was made is left, or that may not last.
    #[error("{0}: all steps were reversed, but a new directory is left, or that may not last")]
    NotSettledBack(Trouble),
    /// On a root with a history: a step failed, all steps were reversed, and that may not last.
    #[error("{0}: all steps were reversed since one failed ({1}), and that may not last")]
    ReversedUnsynced(Trouble, String),
    /// Standard output failed, and nothing was changed.
    #[error("standard output: write fault")]
    Output,
    /// Standard output failed after the changes were made.
    #[error("standard output: write fault, after the changes were made")]
    OutputAfter,
    #[error("out of memory")]
    OutOfMemory,
}

impl Failure {
    /// There are too many units for a call.
    pub fn units(alloc: Global, text: &str) -> Failure {
        match String::from_str(alloc, text) {
            Ok(text) => Failure::Units(text),
            Err(_) => Failure::OutOfMemory,
        }
    }

    /// A word is refused for this reason.
    pub fn bad_word(alloc: Global, reason: &str, word: &str) -> Result<Failure, AllocError> {
        let refused = refused_word(alloc, None, reason, word.as_bytes())?;
        Ok(Failure::BadWords(refused))
    }

    /// The status with which the program ends.
    pub fn status(&self) -> u8
        ensures { result ≡ status_of self.now }
    {
        match self {
            Failure::NoRoot | Failure::BadWords(_) => 2,
            Failure::BadOperator | Failure::BadOperatorAround => 2,
            Failure::OutsideAsOperator => 2,
            Failure::RowsUnsaid | Failure::NoRowsOfHistory => 2,
            Failure::Root(Trouble::Changed(_)) => 4,
            Failure::At(_, Reason::Changed) => 4,
            Failure::HalfDone(..) | Failure::NotSettled(..) => 5,
            Failure::NotSettledBack(_) | Failure::Promised(_) => 5,
            Failure::ReversedUnsynced(..) | Failure::Unsynced(_) => 5,
            Failure::OutputAfter => 6,
            _ => 1,
        }
    }
}

impl From<AllocError> for Failure {
    ghost from_gives = { λ _ e. e ≡ failures.OutOfMemory };

    fn from(_e: AllocError) -> Failure {
        Failure::OutOfMemory
    }
}

impl<T: Drop> From<AllocFailed<T>> for Failure {
    ghost from_gives = { λ _ e. e ≡ failures.OutOfMemory };

    fn from(_e: AllocFailed<T>) -> Failure {
        Failure::OutOfMemory
    }
}

impl From<Trouble> for Failure {
    ghost from_gives = { λ trouble e. e ≡ failures.Root trouble };

    fn from(trouble: Trouble) -> Failure {
        Failure::Root(trouble)
    }
}

impl From<HistoryError> for Failure {
    ghost from_gives = { λ error e. e ≡ of_history error };

    fn from(e: HistoryError) -> Failure {
        match e {
            HistoryError::Trouble(trouble) => Failure::Root(trouble),
            HistoryError::MayNotLast(trouble) => Failure::Unsynced(trouble),
            e => Failure::History(e),
        }
    }
}

impl From<KeptError> for Failure {
    ghost from_gives = { λ error e. e ≡ of_kept error };

    fn from(e: KeptError) -> Failure {
        match e {
            KeptError::RulesDiffer { run, rules } => Failure::OtherRules(run, rules, RULES),
            KeptError::TreeDiffers { row } => Failure::OtherRows(row),
            KeptError::Text(_, LineFault::TooManyLines) => Failure::ManyLines,
            KeptError::Full => Failure::Full,
            KeptError::OutOfMemory => Failure::OutOfMemory,
            e => Failure::Unreadable(e),
        }
    }
}

impl From<LinesError> for Failure {
    ghost from_gives = { λ error e. e ≡ of_lines error };

    fn from(e: LinesError) -> Failure {
        match e {
            LinesError::Bad(line, reason) => Failure::BadLine(line, reason),
            LinesError::TooManyLines => Failure::ManyLines,
            LinesError::Full => Failure::Full,
            LinesError::OutOfMemory => Failure::OutOfMemory,
        }
    }
}

/// A path as text for people.
pub fn shown_path(alloc: Global, path: &TreePath) -> Result<String, AllocError>
    ensures { IfOk result (λ text. string_bytes text ≡ shown_text path.now) }
{
    let mut text = Vec::new(alloc);
    push_shown(&mut text, path.text())?;
    String::from_utf8_lossy(alloc, &text)
}

/// A reason at a path.
pub fn at(alloc: Global, path: &TreePath, reason: Reason) -> Failure
    ensures { IsAt path.now reason result }
{
    match shown_path(alloc, path) {
        Ok(path) => Failure::At(path, reason),
        Err(AllocError) => Failure::OutOfMemory,
    }
}

/// The same at a path to which a link of the root may lead.
fn at_target(alloc: Global, disk: &mut RealDisk<'_>, path: &TreePath, reason: Reason) -> Failure
    ensures { HasReason reason result }
{
    match shown_target(alloc, disk, path) {
        Ok(path) => Failure::At(path, reason),
        Err(AllocError) => Failure::OutOfMemory,
    }
}

pub fn reason_of(oddity: Oddity) -> Reason
    ensures { result ≡ reason_of_oddity oddity }
{
    match oddity {
        Oddity::Directory => Reason::Directory,
        Oddity::Special => Reason::Special,
        Oddity::TooLarge => Reason::TooLarge,
        Oddity::BadTarget => Reason::BadTarget,
    }
}

/// What the system reported last.
fn trouble_of(disk: RealDisk<'_>) -> Failure
    ensures { IsOfRoot result }
{
    let mut disk = disk;
    match disk.take_trouble() {
        Some(trouble) => Failure::Root(trouble),
        None => Failure::OutOfMemory,
    }
}

/// What the disk reported last, while something was read.
pub fn read_trouble(alloc: Global, disk: &mut RealDisk<'_>) -> Failure
    ensures { IsOfRoot result }
{
    match disk.take_trouble() {
        Some(trouble) => Failure::Root(with_link(alloc, disk, trouble)),
        None => Failure::OutOfMemory,
    }
}

/// Why nothing was captured. If a link leads to what the reason is about, it is named too.
pub fn capture_failure(alloc: Global, disk: &mut RealDisk<'_>, e: CaptureError) -> Failure
    ensures { IsOfCapture e result }
{
    match e {
        CaptureError::Odd(path, oddity) => at_target(alloc, disk, &path, reason_of(oddity)),
        CaptureError::NoDirectory(path) => at(alloc, &path, Reason::NoDirectory),
        CaptureError::TooMany => Failure::TooMany,
        CaptureError::BadShape => Failure::BadShape,
        CaptureError::Failed => read_trouble(alloc, disk),
        CaptureError::OutOfMemory => Failure::OutOfMemory,
    }
}

/// Why a step was not made, if those before it were reversed.
pub fn step_failure(alloc: Global, disk: RealDisk<'_>, change: &Change, why: StepError) -> Failure
    ensures { IsOfStep change.now.path why result }
{
    match why {
        StepError::Changed | StepError::Odd => at(alloc, &change.path, Reason::Changed),
        StepError::Failed => trouble_of(disk),
        StepError::OutOfMemory => Failure::OutOfMemory,
    }
}
