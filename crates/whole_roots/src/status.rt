//! What units are, and what enables or masks them: `status`.
ghost use Rattle.std.specs.Prelude.{◌≡◌, IfOk};
ghost use Rattle.whole_roots.specs.Makers.{note_text};

use crate::makers::{MadeBy, look_at_root, makers_of};
use link_tree::{Tree, TreePath, push_decimal};
use real_roots::RealDisk;
use root_histories::{
    Context, Done, Failure, Kept, capture_to_list, name_of, paths_of, print, shown_lines,
};
use root_json::{push_maker, push_unit_status};
use std::alloc::{AllocError, Global};
use unit_lists::{PathNote, UnitStatus, push_status, unit_status};
use unit_name::UnitName;

/// A unit, and the rows of the history that made what is shown of it.
#[derive(Drop)]
struct Shown {
    status: UnitStatus,
    makers: Vec<MadeBy>,
}

/// The names that words stand for.
fn names_of(alloc: Global, words: &[String]) -> Result<Vec<UnitName>, Failure> {
    let mut names = Vec::new(alloc);
    for word in words {
        names.push(name_of(alloc, word.as_str())?)?;
    }
    Ok(names)
}

/// ` (row N by OPERATOR)`
fn note_text(alloc: Global, maker: &MadeBy) -> Result<Vec<u8>, AllocError>
    ensures { IfOk result (λ text. text.items ≡ note_text maker.now.row maker.now.operator) }
{
    let mut text = Vec::from_slice(alloc, b" (row ")?;
    push_decimal(&mut text, maker.row as usize)?;
    text.extend_from_slice(b" by ")?;
    text.extend_from_slice(maker.operator.text())?;
    text.push(b')')?;
    Ok(text)
}

fn note_texts(alloc: Global, makers: &[MadeBy]) -> Result<Vec<Vec<u8>>, AllocError> {
    let mut texts = Vec::new(alloc);
    for maker in makers {
        texts.push(note_text(alloc, maker)?)?;
    }
    Ok(texts)
}

/// Each text as a note on the path that the row made.
fn notes_of<'a>(
    alloc: Global,
    makers: &'a [MadeBy],
    texts: &'a [Vec<u8>],
) -> Result<Vec<PathNote<'a>>, AllocError> {
    let mut notes = Vec::new(alloc);
    for (maker, text) in makers.iter().zip(texts) {
        let path = &maker.path;
        notes.push(PathNote { path, text })?;
    }
    Ok(notes)
}

fn push_shown(alloc: Global, text: &mut Vec<u8>, shown: &Shown) -> Result<(), AllocError> {
    let texts = note_texts(alloc, &shown.makers)?;
    let notes = notes_of(alloc, &shown.makers, &texts)?;
    push_status(text, &shown.status, &notes)
}

/// What is known of units, with an empty line between each two.
fn text_of(alloc: Global, all: &[Shown]) -> Result<Vec<u8>, AllocError> {
    let mut text = Vec::new(alloc);
    for shown in all {
        if !text.is_empty() {
            text.push(b'\n')?;
        }
        push_shown(alloc, &mut text, shown)?;
    }
    shown_lines(alloc, &text)
}

/// Appends all that is known of a unit, and which rows of the history made what is at its paths.
fn push_status_lines(
    out: &mut Vec<u8>,
    status: &UnitStatus,
    makers: &[MadeBy],
) -> Result<(), AllocError> {
    push_unit_status(out, status)?;
    for maker in makers {
        push_maker(
            out,
            &status.name,
            &maker.path,
            maker.row,
            maker.operator.text(),
        )?;
    }
    Ok(())
}

fn json_of(alloc: Global, all: &[Shown]) -> Result<Vec<u8>, AllocError> {
    let mut text = Vec::new(alloc);
    for shown in all {
        push_status_lines(&mut text, &shown.status, &shown.makers)?;
    }
    Ok(text)
}

fn shown_of(
    alloc: Global,
    tree: &Tree,
    kept: &Option<Kept>,
    name: &UnitName,
) -> Result<Shown, AllocError> {
    let status = unit_status(alloc, tree, name)?;
    let makers = match kept {
        Some(kept) => makers_of(alloc, kept.history(), tree, &status)?,
        None => Vec::new(alloc),
    };
    Ok(Shown { status, makers })
}

fn all_shown(
    alloc: Global,
    tree: &Tree,
    kept: &Option<Kept>,
    names: &[UnitName],
) -> Result<Vec<Shown>, AllocError> {
    let mut all = Vec::new(alloc);
    for name in names {
        all.push(shown_of(alloc, tree, kept, name)?)?;
    }
    Ok(all)
}

/// What is known of units, as text or as JSON.
fn text_or_json(
    alloc: Global,
    tree: &Tree,
    kept: &Option<Kept>,
    names: &[UnitName],
    json: bool,
) -> Result<Vec<u8>, AllocError> {
    let all = all_shown(alloc, tree, kept, names)?;
    if json {
        json_of(alloc, &all)
    } else {
        text_of(alloc, &all)
    }
}

/// Captures the root, and shows what the units are.
fn show_captured(
    cx: Context<'_>,
    disk: RealDisk<'_>,
    paths: &[TreePath],
    kept: &Option<Kept>,
    names: &[UnitName],
) -> Result<u8, Failure> {
    let alloc = cx.rt.alloc();
    let tree = capture_to_list(cx.rt, cx.asked, disk, paths)?;
    let text = text_or_json(alloc, &tree, kept, names, cx.asked.output.json)?;
    print(cx.rt, &text, Done::Nothing)?;
    Ok(0)
}

fn show_units(cx: Context<'_>, paths: &[TreePath], names: &[UnitName]) -> Result<u8, Failure> {
    let (disk, kept) = look_at_root(cx)?;
    show_captured(cx, disk, paths, &kept, names)
}

/// Shows what units are, and what enables or masks them. If the root has a history, it says which
/// rows of it made these entries.
///
/// Errors: a word is no name of a unit; the root can't be captured; the history that `--history`
/// names can't be read; standard output fails.
pub fn show_status(cx: Context<'_>, units: &[String]) -> Result<u8, Failure> {
    let alloc = cx.rt.alloc();
    let names = names_of(alloc, units)?;
    let paths = paths_of(alloc, &cx.asked.with)?;
    show_units(cx, &paths, &names)
}
