//! Names, paths and entries.
ghost use Rattle.std.specs.Prelude.{◌≡◌, IfOk};
ghost use Rattle.link_tree.specs.declared.entry.Entry.TheVariants.{File, Link};

use link_tree::{Entry, FileError, PathError, TargetError, TreePath};
use std::alloc::{AllocError, Global};
use unit_name::{NameError, UnitName, ample};

/// The name of a unit.
pub fn name(alloc: Global, text: &[u8]) -> Result<UnitName, AllocError>
    ensures { IfOk result (λ name. name ≡ text.now) }
{
    match ample!(UnitName::parse(alloc, text), NameError::OutOfMemory) {
        Ok(name) => Ok(name),
        Err(_) => Err(AllocError),
    }
}

/// A path.
pub fn path(alloc: Global, text: &[u8]) -> Result<TreePath, AllocError>
    ensures { IfOk result (λ path. path ≡ text.now) }
{
    match ample!(TreePath::parse(alloc, text), PathError::OutOfMemory) {
        Ok(path) => Ok(path),
        Err(_) => Err(AllocError),
    }
}

/// A file of these bytes.
pub fn file(alloc: Global, bytes: &[u8]) -> Result<Entry, AllocError>
    ensures { IfOk result (λ entry. entry ≡ File bytes.now) }
{
    match ample!(Entry::file(alloc, bytes), FileError::OutOfMemory) {
        Ok(file) => Ok(file),
        Err(_) => Err(AllocError),
    }
}

/// A link with this target.
pub fn link(alloc: Global, target: &[u8]) -> Result<Entry, AllocError>
    ensures { IfOk result (λ entry. entry ≡ Link target.now) }
{
    match ample!(Entry::link(alloc, target), TargetError::OutOfMemory) {
        Ok(link) => Ok(link),
        Err(_) => Err(AllocError),
    }
}
