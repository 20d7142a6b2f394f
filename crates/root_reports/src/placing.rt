//! A file that is put in the root with the bytes of standard input.
ghost use Rattle.std.specs.Prelude.{◌≡◌, true, false, IfErr, IfOk};
ghost use Rattle.history.specs.declared.row.Request.TheVariants.{Do};
ghost use Rattle.link_tree.specs.Files.{is_contents};
ghost use Rattle.link_tree.specs.declared.entry.Entry.TheVariants.{File};
ghost use Rattle.root_access.specs.declared.failure.Failure.TheVariants as failures;
ghost use Rattle.unit_script.specs.declared.action.Action.TheVariants as actions;

use history::{Operator, Request};
use link_tree::{Entry, FileError, PathError, TreePath};
use root_access::Failure;
use root_words::Command;
use slot_commands::PlaceEntry;
use std::alloc::Global;
use unit_script::{Action, Call};

/// The path of `place PATH file -`.
pub fn path_for_input(command: &Command) -> Option<&str> {
    match command {
        Command::Place(words) => match words.as_slice() {
            [path, kind, text] if kind.as_str() == "file" && text.as_str() == "-" => {
                Some(path.as_str())
            }
            _ => None,
        },
        _ => None,
    }
}

/// The path that a word is.
pub fn path_of(alloc: Global, text: &str) -> Result<TreePath, Failure>
    ensures { IfOk result (λ path. path ≡ text.now) }
{
    match TreePath::parse(alloc, text.as_bytes()) {
        Ok(path) => Ok(path),
        Err(PathError::BadPath) => Err(Failure::bad_word(alloc, "bad path", text)?),
        Err(PathError::OutOfMemory) => Err(Failure::OutOfMemory),
    }
}

fn file_of(alloc: Global, bytes: &[u8]) -> Result<Entry, Failure>
    ensures file { IfOk result (λ entry. entry ≡ File bytes.now) }
    ensures large { IfErr result (λ failure. failure ≡ failures.InputTooLarge → is_contents bytes.now ≡ false) }
{
    match Entry::file(alloc, bytes) {
        Ok(entry) => Ok(entry),
        Err(FileError::TooLarge) => Err(Failure::InputTooLarge),
        Err(FileError::OutOfMemory) => Err(Failure::OutOfMemory),
    }
}

/// The call that puts a file with the bytes of standard input at a path.
pub fn call_for_input(
    alloc: Global,
    operator: Operator,
    path: &str,
    bytes: &[u8],
) -> Result<Call, Failure>
    ensures { IfOk result (λ call. call ≡ record { operator = operator; request = Do (actions.PlaceEntry (record { path = path.now; entry = File bytes.now })) }) }
{
    let path = path_of(alloc, path)?;
    let entry = file_of(alloc, bytes)?;
    let request = Request::Do(Action::PlaceEntry(PlaceEntry { path, entry }));
    Ok(Call { operator, request })
}
