//! Which units a root has: `list-unit-files`.

use crate::json::units_text;
use link_tree::Tree;
use root_histories::{Done, Failure, capture_to_list, note_promise, paths_of, print, take_root};
use root_words::{Asked, Listed};
use std::alloc::{AllocError, Global};
use unit_file::Word;
use unit_lists::{UnitLine, push_table, selected_lines, selected_names, unit_files, unit_lines};

fn words_of(alloc: Global, texts: &[String]) -> Result<Vec<Word>, AllocError> {
    let mut words = Vec::new(alloc);
    for text in texts {
        words.push(Word::from_slice(alloc, text.as_str().as_bytes())?)?;
    }
    Ok(words)
}

fn lines_of(alloc: Global, tree: &Tree, listed: &Listed) -> Result<Vec<UnitLine>, AllocError> {
    let patterns = words_of(alloc, &listed.patterns)?;
    let types = words_of(alloc, &listed.types)?;
    let states = words_of(alloc, &listed.states)?;
    let names = unit_files(alloc, tree)?;
    let names = selected_names(alloc, names.as_slice(), &patterns, &types)?;
    let lines = unit_lines(alloc, tree, names.as_slice())?;
    selected_lines(alloc, lines, &states)
}

fn table_of(alloc: Global, asked: &Asked, lines: &[UnitLine]) -> Result<Vec<u8>, AllocError> {
    if asked.output.json {
        return units_text(alloc, lines);
    }
    let mut text = Vec::new(alloc);
    push_table(&mut text, lines, asked.output.legend)?;
    Ok(text)
}

/// Lists the unit files of a root, each with its state and what the preset files say. As in systemctl,
/// the status is 1 if there is none.
///
/// Errors: the root can't be captured; standard output fails.
pub fn list_unit_files(
    rt: &HostRuntime,
    asked: &Asked,
    root: &str,
    listed: &Listed,
) -> Result<u8, Failure> {
    let paths = paths_of(rt.alloc(), &asked.with)?;
    let mut disk = take_root(rt, asked, root)?;
    note_promise(rt, &mut disk, asked.output.json)?;
    let tree = capture_to_list(rt, asked, disk, &paths)?;
    let lines = lines_of(rt.alloc(), &tree, listed)?;
    let text = table_of(rt.alloc(), asked, &lines)?;
    print(rt, &text, Done::Nothing)?;
    Ok(if lines.is_empty() { 1 } else { 0 })
}
