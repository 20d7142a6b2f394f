//! Single words of a script, and lists of them.
ghost use Rattle.std.specs.Prelude.{map};
ghost use Rattle.unit_script.specs.Words.{name_of, names_of, units_of, path_of, paths_of, given_paths, link_of, file_with, file_of};
ghost use Rattle.byte_streams.specs.Reads.{Gives};

use crate::reason::Reason;
use byte_streams::ReadError;
use footprint::Units;
use link_tree::{Entry, FileError, PathError, TargetError, TreePath};
use script_words::unescaped;
use slot_commands::Paths;
use std::alloc::Global;
use unit_name::{NameError, UnitName};

/// The name of a unit.
pub(crate) fn name_of(alloc: Global, word: &[u8]) -> Result<UnitName, ReadError<Reason>>
    ensures { Gives (λ x. x) result (name_of word.now) }
{
    match UnitName::parse(alloc, word) {
        Ok(name) => Ok(name),
        Err(NameError::Bad(_)) => Err(ReadError::Fault(Reason::BadName)),
        Err(NameError::OutOfMemory) => Err(ReadError::OutOfMemory),
    }
}

/// Words, all of which must be names of units.
pub(crate) fn names_of(alloc: Global, words: &[&[u8]]) -> Result<Units, ReadError<Reason>>
    ensures { Gives (λ x. x) result (names_of (map (λ word. word.now) words.now)) }
{
    let mut units = Units::none(alloc);
    for word in words {
        match name_of(alloc, word) {
            Ok(name) => units.push(name)?,
            Err(e) => return Err(e),
        }
    }
    Ok(units)
}

/// The names of units, at least one.
pub(crate) fn units_of(alloc: Global, words: &[&[u8]]) -> Result<Units, ReadError<Reason>>
    ensures { Gives (λ x. x) result (units_of (map (λ word. word.now) words.now)) }
{
    match words {
        [] => Err(ReadError::Fault(Reason::WrongArguments)),
        _ => names_of(alloc, words),
    }
}

/// A path.
#[tactic(auto, unfolding(crate::specs::Words::path_of))]
pub(crate) fn path_of(alloc: Global, word: &[u8]) -> Result<TreePath, ReadError<Reason>>
    ensures { Gives (λ x. x) result (path_of word.now) }
{
    match TreePath::parse(alloc, word) {
        Ok(path) => Ok(path),
        Err(PathError::BadPath) => Err(ReadError::Fault(Reason::BadPath)),
        Err(PathError::OutOfMemory) => Err(ReadError::OutOfMemory),
    }
}

fn paths_of(alloc: Global, words: &[&[u8]]) -> Result<Paths, ReadError<Reason>>
    ensures { Gives (λ x. x) result (paths_of (map (λ word. word.now) words.now)) }
{
    let mut paths = Paths::none(alloc);
    for word in words {
        match path_of(alloc, word) {
            Ok(path) => paths.push(path)?,
            Err(e) => return Err(e),
        }
    }
    Ok(paths)
}

/// Paths, at least one.
pub(crate) fn given_paths(alloc: Global, words: &[&[u8]]) -> Result<Paths, ReadError<Reason>>
    ensures { Gives (λ x. x) result (given_paths (map (λ word. word.now) words.now)) }
{
    match words {
        [] => Err(ReadError::Fault(Reason::WrongArguments)),
        _ => paths_of(alloc, words),
    }
}

/// The link to a target.
#[tactic(auto, unfolding(crate::specs::Words::link_of))]
pub(crate) fn link_of(alloc: Global, word: &[u8]) -> Result<Entry, ReadError<Reason>>
    ensures { Gives (λ x. x) result (link_of word.now) }
{
    match Entry::link(alloc, word) {
        Ok(entry) => Ok(entry),
        Err(TargetError::BadTarget) => Err(ReadError::Fault(Reason::BadTarget)),
        Err(TargetError::OutOfMemory) => Err(ReadError::OutOfMemory),
    }
}

#[tactic(auto, unfolding(crate::specs::Words::file_with))]
fn file_with(alloc: Global, bytes: &[u8]) -> Result<Entry, ReadError<Reason>>
    ensures { Gives (λ x. x) result (file_with bytes.now) }
{
    match Entry::file(alloc, bytes) {
        Ok(entry) => Ok(entry),
        Err(FileError::TooLarge) => Err(ReadError::Fault(Reason::BadText)),
        Err(FileError::OutOfMemory) => Err(ReadError::OutOfMemory),
    }
}

/// The file that contains the bytes that a word represents.
pub(crate) fn file_of(alloc: Global, word: &[u8]) -> Result<Entry, ReadError<Reason>>
    ensures { Gives (λ x. x) result (file_of word.now) }
{
    match unescaped(alloc, word)? {
        Some(bytes) => file_with(alloc, &bytes),
        None => Err(ReadError::Fault(Reason::BadText)),
    }
}
