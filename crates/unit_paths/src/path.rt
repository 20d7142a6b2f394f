ghost use Rattle.std.specs.Prelude.{◌≡◌, ◌<◌, length, IfOk, IfSome, true, false, Some, None, if◌then◌else◌};
ghost use Rattle.unit_paths.specs.Paths.{is_path, parent, parent_of, name_at, first_beneath};

use crate::fault::PathError;
use crate::part::is_path;
use crate::text::{cut_at_last_slash, parent_len};
use std::alloc::{AllocError, Global};
use std::marker::Model;

/// The least byte that a part of a path may begin with.
const LEAST_BYTE: u8 = 1;

/// The path of an entry in a tree, as `/etc/systemd/system/ssh.service`: an absolute path of at
/// most 4,095 bytes, without NUL, TAB and LF, and without empty parts, `.` and `..`; the root is
/// not allowed. Paths are compared, ordered and hashed by the bytes of their text. Contracts see
/// the text.
#[derive(Debug, Drop)]
pub struct TreePath {
    text: Vec<u8>,
}

impl Model for TreePath {
    ghost use Rattle.std.specs.Prelude.{List, ℕ, IsTrue};
    ghost use Rattle.unit_paths.specs.Paths.{is_path};

    ghost Value = { List ℕ };

    ghost view = { λ path. path.text.items };

    ghost invariant = { λ path. IsTrue (is_path path.text.items) };
}

impl TreePath {
    /// Reads a path, and copies the text.
    ///
    /// - `BadPath`: the text has over 4,095 bytes, has a NUL, TAB or LF, doesn't begin with a
    ///   slash, is the root, or has a part between its slashes that is empty, `.` or `..`; a slash
    ///   at the end counts as an empty part.
    /// - `OutOfMemory`: memory runs out. The text is checked first, so a bad one is always
    ///   `BadPath`.
    pub fn parse(alloc: Global, text: &[u8]) -> Result<TreePath, PathError>
        ensures path { IfOk result (λ path. (path ≡ text.now) × (is_path text.now ≡ true)) }
        ensures bad { result ≡ Err PathError.BadPath → is_path text.now ≡ false }
    {
        if !is_path(text) {
            return Err(PathError::BadPath);
        }
        let text = Vec::from_slice(alloc, text)?;
        Ok(TreePath { text })
    }

    /// Takes a text as a path; `None` if it isn't one.
    pub(crate) fn of_text(text: Vec<u8>) -> Option<TreePath>
        ensures { result ≡ (if is_path text.items then Some text.items else None) }
    {
        if is_path(&text) {
            Some(TreePath { text })
        } else {
            None
        }
    }

    /// The allocator that the path keeps.
    pub(crate) fn allocator(&self) -> Global {
        *self.text.allocator()
    }

    /// The text of the path, which is always one that `parse` reads.
    pub fn text(&self) -> &[u8]
        ensures text { result.now ≡ self.now }
        ensures path { is_path self.now ≡ true }
    {
        &self.text
    }

    /// What comes after the last slash: `ssh.service`.
    pub fn file_name(&self) -> &[u8]
        ensures { result.now ≡ name_at self.now }
    {
        cut_at_last_slash(self.text()).1
    }

    /// What comes before the last slash: `/etc/systemd/system`; the empty text if that is the root.
    pub fn directory(&self) -> &[u8]
        ensures { result.now ≡ parent self.now }
    {
        cut_at_last_slash(self.text()).0
    }

    /// An equal path. Fails only if memory runs out.
    pub fn copy(&self) -> Result<TreePath, AllocError>
        ensures { IfOk result (λ path. path ≡ self.now) }
    {
        Ok(TreePath {
            text: self.text.clone()?,
        })
    }

    /// The directory of the path, in the memory of the path; `None` if that is the root.
    pub fn into_parent(self) -> Option<TreePath>
        ensures parent { result ≡ parent_of self }
        ensures path { is_path self ≡ true }
        ensures shorter { IfSome result (λ dir. length dir < length self) }
    {
        let mut text = self.text;
        let end = parent_len(&text);
        text.truncate(end);
        if text.is_empty() {
            None
        } else {
            Some(TreePath { text })
        }
    }

    /// The first path in byte order that can lie beneath this one, so that a sorted map can be
    /// searched for such paths; `None` if no path can, since it would have over 4,095 bytes. Fails
    /// only if memory runs out.
    pub fn first_beneath(&self) -> Result<Option<TreePath>, AllocError>
        ensures first { IfOk result (λ first. first ≡ first_beneath self.now) }
        ensures path { is_path self.now ≡ true }
    {
        let mut text = self.text.clone()?;
        text.push(b'/')?;
        text.push(LEAST_BYTE)?;
        Ok(TreePath::of_text(text))
    }
}

impl Clone for TreePath {
    ghost is_clone = { λ path copy. copy ≡ path };

    fn clone(&self) -> Result<TreePath, AllocError> {
        self.copy()
    }
}
