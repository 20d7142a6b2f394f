//! What others did to a root, as lines.
ghost use Rattle.std.specs.Prelude.{◌≡◌, ◌∷◌, ◌++◌, true, nat_le, length, codes, IfOk, OnOk, OnErr};
ghost use Rattle.link_tree.specs.declared.entry.Entry.TheVariants as entries;
ghost use Rattle.script_words.specs.Words.{lines_text};
ghost use Rattle.kept_rows.specs.Others.{outside};
ghost use Rattle.kept_rows.specs.Lines.{line_of, word_if_any, removal_line, placement_line, lines_of_change, lines_of_others, can_be_placed, can_be_written, is_entry_if_any, CanBeWritten};

use crate::lines::{can_be_word, push_call};
use link_tree::{Change, Contents, Entry, TreePath};
use script_words::push_escaped;
use std::alloc::{AllocError, Global};
use unit_script::MAX_LINE;

fn push_removal(line: &mut Vec<u8>, path: &TreePath) -> Result<(), AllocError>
    ensures { OnOk result (line.new.items ≡ line.old.items ++ removal_line path.now) }
{
    push_call(line, b"outside", &[b"remove", path.text()])
}

/// Adds the placement of a file by its text, which is left out if it is empty.
fn push_text(line: &mut Vec<u8>, path: &TreePath, text: &[u8]) -> Result<(), AllocError>
    ensures { OnOk result (line.new.items ≡ line.old.items ++ line_of outside (codes "place" ∷ path.now ∷ codes "file" ∷ word_if_any text.now)) }
{
    match text {
        [] => push_call(line, b"outside", &[b"place", path.text(), b"file"]),
        _ => push_call(line, b"outside", &[b"place", path.text(), b"file", text]),
    }
}

fn push_file(line: &mut Vec<u8>, path: &TreePath, contents: &Contents) -> Result<(), AllocError>
    ensures { OnOk result (line.new.items ≡ line.old.items ++ placement_line path.now (entries.File contents.now)) }
{
    let mut text = Vec::new(*line.allocator());
    push_escaped(&mut text, contents.bytes())?;
    push_text(line, path, &text)
}

fn push_placement(line: &mut Vec<u8>, path: &TreePath, entry: &Entry) -> Result<(), AllocError>
    ensures { OnOk result (line.new.items ≡ line.old.items ++ placement_line path.now entry.now) }
{
    match entry {
        Entry::Link(target) => push_call(
            line,
            b"outside",
            &[b"place", path.text(), b"link", target.text()],
        ),
        Entry::File(contents) => push_file(line, path, contents),
    }
}

fn push_removal_line(text: &mut Vec<u8>, path: &TreePath) -> Result<(), AllocError>
    ensures { OnOk result (text.new.items ≡ text.old.items ++ (removal_line path.now ++ codes "\n")) }
{
    push_removal(text, path)?;
    Ok(text.push(b'\n')?)
}

fn push_placement_line(text: &mut Vec<u8>, path: &TreePath, entry: &Entry) -> Result<(), AllocError>
    ensures { OnOk result (text.new.items ≡ text.old.items ++ (placement_line path.now entry.now ++ codes "\n")) }
{
    push_placement(text, path, entry)?;
    Ok(text.push(b'\n')?)
}

/// Adds the lines of the calls that make a change.
fn push_change(text: &mut Vec<u8>, change: &Change) -> Result<(), AllocError>
    ensures { OnOk result (text.new.items ≡ text.old.items ++ lines_text (lines_of_change change.now)) }
{
    match (&change.before, &change.after) {
        (None, None) => Ok(()),
        (Some(_), None) => push_removal_line(text, &change.path),
        (None, Some(new)) => push_placement_line(text, &change.path, new),
        (Some(_), Some(new)) => {
            push_removal_line(text, &change.path)?;
            push_placement_line(text, &change.path, new)
        }
    }
}

#[tactic(auto, using(crate::proofs::LineTexts::lines_text_append))]
fn push_changes(text: &mut Vec<u8>, changes: &[Change]) -> Result<(), AllocError>
    ensures { OnOk result (text.new.items ≡ text.old.items ++ lines_text (lines_of_others changes.now)) }
{
    for change in changes {
        push_change(text, change)?;
    }
    Ok(())
}

/// Appends the lines of the calls that `calls_of_others` has for these changes to the text of a
/// history. They are read as exactly these calls if each of the changes can be written
/// (`can_be_written`). If memory runs out, nothing has been appended.
pub fn push_lines_of_others(text: &mut Vec<u8>, changes: &[Change]) -> Result<(), AllocError>
    ensures ok { OnOk result (text.new.items ≡ text.old.items ++ lines_text (lines_of_others changes.now)) }
    ensures err { OnErr result (text.new.items ≡ text.old.items) }
{
    let mut lines = Vec::new(*text.allocator());
    push_changes(&mut lines, changes)?;
    text.extend_from_slice(&lines)
}

/// Whether the line by which a file is placed isn't too long.
fn is_short(alloc: Global, path: &TreePath, contents: &Contents) -> Result<bool, AllocError>
    ensures { IfOk result (λ short. short ≡ nat_le (length (placement_line path.now (entries.File contents.now))) 65536) }
{
    let mut line = Vec::new(alloc);
    push_file(&mut line, path, contents)?;
    Ok(line.len() <= MAX_LINE)
}

fn can_be_placed(alloc: Global, path: &TreePath, entry: &Option<Entry>) -> Result<bool, AllocError>
    ensures { IfOk result (λ placed. placed ≡ can_be_placed path.now entry.now) }
{
    match entry {
        None => Ok(true),
        Some(Entry::Link(target)) => Ok(can_be_word(target.text())),
        Some(Entry::File(contents)) => is_short(alloc, path, contents),
    }
}

/// What is at a path of a tree is an entry, or nothing.
fn after_is_entry(change: &Change)
    ensures { is_entry_if_any change.now.after ≡ true }
{
    match &change.after {
        Some(entry) => {
            let _bytes = entry.bytes();
        }
        None => {}
    }
}

/// Whether lines of a script can say that others made a change. They can't if there is a space in
/// the path or in the target of the link that is placed, or if the line of the file that is placed
/// would have over 65,536 bytes. Fails only if memory runs out.
pub fn can_be_written(alloc: Global, change: &Change) -> Result<bool, AllocError>
    ensures test { IfOk result (λ written. written ≡ can_be_written change.now) }
    ensures lines { IfOk result (λ written. written ≡ true → CanBeWritten change.now) }
{
    after_is_entry(change);
    if !can_be_word(change.path.text()) {
        return Ok(false);
    }
    can_be_placed(alloc, &change.path, &change.after)
}
