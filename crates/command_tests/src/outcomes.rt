//! What operations result in.
use crate::lines::{push_line, without_last_end};
use footprint::{Answer, Outcome, Refusal, StateWord, Subject};
use link_tree::{Change, Entry, TreePath};
use std::alloc::{AllocError, Global};
use unit_name::UnitName;

fn push_entry(out: &mut Vec<u8>, entry: &Entry) -> Result<(), AllocError> {
    let kind: &[u8] = match entry {
        Entry::File(_) => b" file ",
        Entry::Link(_) => b" -> ",
    };
    out.extend_from_slice(kind)?;
    out.extend_from_slice(entry.bytes())
}

fn push_side(
    out: &mut Vec<u8>,
    sign: &[u8],
    path: &TreePath,
    side: &Option<Entry>,
) -> Result<(), AllocError> {
    let Some(entry) = side else {
        return Ok(());
    };
    out.extend_from_slice(sign)?;
    out.extend_from_slice(path.text())?;
    push_entry(out, entry)?;
    out.extend_from_slice(b"\n")
}

/// What is removed at each path, and what is placed there.
fn push_changes(out: &mut Vec<u8>, changes: &[Change]) -> Result<(), AllocError> {
    for change in changes {
        push_side(out, b"- ", &change.path, &change.before)?;
        push_side(out, b"+ ", &change.path, &change.after)?;
    }
    Ok(())
}

fn text_of(subject: &Subject) -> &[u8] {
    match subject {
        Subject::Unit(name) => name.text(),
        Subject::Path(path) => path.text(),
    }
}

fn words_of(refusal: &Refusal) -> &'static [u8] {
    match refusal {
        Refusal::NotFound(_) => b"not found: ",
        Refusal::Masked(_) => b"masked: ",
        Refusal::Dangling(_) => b"dangling: ",
        Refusal::BadType(_) => b"bad type: ",
        Refusal::NeedsInstance(_) => b"needs instance: ",
        Refusal::NotASlot(_) => b"not a slot: ",
        Refusal::Absent(_) => b"absent: ",
        Refusal::Exists(_) => b"exists: ",
        Refusal::IsAlias { .. } => b"alias of ",
        Refusal::TooMany => b"too many",
        Refusal::Clash(_) => b"clash: ",
    }
}

/// What a refusal names.
fn named_by(refusal: &Refusal) -> &[u8] {
    match refusal {
        Refusal::NotFound(subject) | Refusal::Masked(subject) | Refusal::BadType(subject) => {
            text_of(subject)
        }
        Refusal::NeedsInstance(name) => name.text(),
        Refusal::Dangling(path)
        | Refusal::NotASlot(path)
        | Refusal::Absent(path)
        | Refusal::Exists(path)
        | Refusal::Clash(path) => path.text(),
        Refusal::IsAlias { real, .. } => real.text(),
        Refusal::TooMany => b"",
    }
}

/// The word that `is-enabled` prints.
fn state_text(word: StateWord) -> &'static [u8] {
    match word {
        StateWord::NotFound => b"not-found",
        StateWord::Masked => b"masked",
        StateWord::MaskedRuntime => b"masked-runtime",
        StateWord::Alias => b"alias",
        StateWord::Enabled => b"enabled",
        StateWord::EnabledRuntime => b"enabled-runtime",
        StateWord::Linked => b"linked",
        StateWord::LinkedRuntime => b"linked-runtime",
        StateWord::Static => b"static",
        StateWord::Indirect => b"indirect",
        StateWord::Disabled => b"disabled",
    }
}

fn push_names(out: &mut Vec<u8>, names: &[UnitName]) -> Result<(), AllocError> {
    for name in names {
        push_line(out, b"", name.text())?;
    }
    Ok(())
}

/// The answer, with the notices or names, each on a line.
fn push_answer(out: &mut Vec<u8>, answer: &Answer) -> Result<(), AllocError> {
    match answer {
        Answer::Refused(refusal) => push_line(out, words_of(refusal), named_by(refusal)),
        Answer::Done(notices) => {
            out.extend_from_slice(b"done\n")?;
            notices.push_lines(out)
        }
        Answer::Name(name) => push_line(out, b"is ", name.text()),
        Answer::Names(names) => push_names(out, names.as_slice()),
        Answer::State(word) => push_line(out, b"", state_text(*word)),
    }
}

/// What an operation results in: its answer, and a line for each entry that is removed or placed.
pub(crate) fn outcome_text(alloc: Global, outcome: &Outcome) -> Result<Vec<u8>, AllocError> {
    let mut out = Vec::new(alloc);
    push_answer(&mut out, &outcome.answer)?;
    push_changes(&mut out, outcome.changes.as_slice())?;
    without_last_end(out)
}
