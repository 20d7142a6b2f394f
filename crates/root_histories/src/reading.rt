//! Reading a history.
ghost use Rattle.std.specs.Prelude.{◌≡◌, length, IfOk};
ghost use Rattle.root_histories.specs.Readings.{checked_length, is_of_other_root, is_of_text, most_bytes, unless_of_text, MayBeUsed};

use crate::kept_root::KeptRoot;
use kept_roots::{HistoryError, HistoryFile, MOST_BYTES};
use kept_runs::{Kept, KeptError};
use root_access::{Context, Failure, RULES};
use root_runs::push_shown;
use std::alloc::{AllocError, Global};
use unit_script::{InputFault, ScriptFault};

/// A history with more rows is read and written only if `--history` names it.
const MOST_ROWS: usize = 100_000;

/// At most this number of bytes is read and written if `--history` names the history.
const MOST_BYTES_NAMED: u64 = 1 << 31;

/// At most this number of bytes of a history is read and written.
pub fn most_bytes(cx: Context<'_>) -> u64
    ensures { result ≡ most_bytes cx.entry.asked.now.history }
{
    if cx.asked.history.is_some() {
        MOST_BYTES_NAMED
    } else {
        MOST_BYTES
    }
}

/// Bytes as text for people.
pub fn shown(alloc: Global, bytes: &[u8]) -> Result<String, AllocError> {
    let mut text = Vec::new(alloc);
    push_shown(&mut text, bytes)?;
    String::from_utf8_lossy(alloc, &text)
}

/// Whether the history was begun for another root. One that is in the root belongs to it, wherever
/// the root is now.
pub fn is_of_other_root(cx: Context<'_>, kept: &Kept) -> bool
    ensures { result ≡ is_of_other_root cx.entry.asked.now.history kept.now.text.parts.header.root cx.entry.path.now }
{
    cx.asked.history.is_some() && kept.text().header().root.text() != cx.path.as_bytes()
}

/// Refuses a history that is very long. It is asked before one is written too, so that a later run
/// can read what was written.
///
/// Errors: `ManyRows`; `ManyBytes`.
pub fn check_length(cx: Context<'_>, kept: &Kept) -> Result<(), Failure>
    ensures { result ≡ checked_length cx.entry.asked.now.history (length kept.now.history.rows) (length kept.now.text.bytes.items) }
{
    if cx.asked.history.is_none() && kept.history().rows().len() > MOST_ROWS {
        return Err(Failure::ManyRows);
    }
    let most = most_bytes(cx);
    if kept.text().bytes().len() as u64 > most {
        return Err(Failure::ManyBytes(most));
    }
    Ok(())
}

/// Refuses a history of another root, and one that is very long.
fn check(cx: Context<'_>, kept: &Kept) -> Result<(), Failure>
    ensures { IfOk result (λ _. MayBeUsed cx.entry.asked.now cx.entry.path.now kept.now) }
{
    if is_of_other_root(cx, kept) && !cx.asked.adopt {
        let root = shown(cx.rt.alloc(), kept.text().header().root.text())?;
        return Err(Failure::OtherRoot(root));
    }
    check_length(cx, kept)
}

/// How many lines of a history are before its header, the last one of which is `== calls`. A file
/// of the inventory may have these two lines too, but they are before the header, and no run has
/// them.
fn lines_before_header(text: &[u8]) -> usize {
    let (mut before, mut count) = (0_usize, 0_usize);
    let mut is_after_calls = false;
    for line in text.split(|b| *b == b'\n') {
        if is_after_calls && line.starts_with(b"# unitroot-history ") {
            before = count;
        }
        count = count.saturating_add(1);
        is_after_calls = line == b"== calls".as_slice();
    }
    before
}

/// The history of a text.
pub fn kept_of(alloc: Global, text: Vec<u8>) -> Result<Kept, Failure> {
    let before = lines_before_header(&text);
    match Kept::read(alloc, text, RULES) {
        Ok(kept) => Ok(kept),
        Err(KeptError::Input(InputFault::Script(ScriptFault::Bad(line, reason)))) => {
            Err(Failure::BadCall(before.saturating_add(line as usize), reason))
        }
        Err(e) => Err(Failure::from(e)),
    }
}

/// Whether the history itself is at fault, so that another one may begin in its place: its text,
/// that of a promised run, or that its file is missing, too large or no file. Otherwise the system
/// refused something, memory ran out, or the history is that of another root.
pub fn is_of_text(failure: &Failure) -> bool
    ensures { result ≡ is_of_text failure.now }
{
    match failure {
        Failure::Unreadable(_) | Failure::BadCall(..) => true,
        Failure::OnlyPromised | Failure::OtherPromise => true,
        Failure::OtherRules(..) | Failure::OtherRows(_) => true,
        Failure::ManyRows | Failure::ManyBytes(_) => true,
        Failure::ManyLines | Failure::Full => true,
        Failure::History(HistoryError::NoFile(_) | HistoryError::TooLarge(..)) => true,
        _ => false,
    }
}

/// The reason why a history can't be read, unless its text is at fault.
pub fn unless_of_text(failure: Failure) -> Result<(), Failure>
    ensures { result ≡ unless_of_text failure }
{
    if is_of_text(&failure) {
        Ok(())
    } else {
        Err(failure)
    }
}

/// The text of the history.
fn current_text(cx: Context<'_>, root: &mut KeptRoot<'_>) -> Result<Vec<u8>, Failure> {
    match root
        .disk
        .directory()
        .read(HistoryFile::Current, most_bytes(cx))?
    {
        Some(text) => Ok(text),
        None => Err(Failure::OnlyPromised),
    }
}

/// Reads the history of a root.
///
/// Errors: it can't be read, is only promised, is that of another root (unless `--adopt` is given),
/// or has too many rows; out of memory.
pub fn read_kept(cx: Context<'_>, root: &mut KeptRoot<'_>) -> Result<Kept, Failure>
    ensures { IfOk result (MayBeUsed cx.entry.asked.now cx.entry.path.now) }
{
    let kept = kept_of(cx.rt.alloc(), current_text(cx, root)?)?;
    match check(cx, &kept) {
        Ok(()) => Ok(kept),
        Err(failure) => Err(failure),
    }
}
