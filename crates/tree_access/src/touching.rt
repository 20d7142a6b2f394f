//! Which changes touch a key.
ghost use Rattle.std.specs.Prelude.{◌≡◌};
ghost use Rattle.tree_access.specs.Keys.{is_marked, touches};

use crate::key::Key;
use link_tree::{Change, Entry, Scope, Slot, TreePath, belongs};
use unit_name::UnitName;

/// Whether a change touches what a key looks at: the cell of its path; the names in a scope to
/// which its entry before or after belongs; the presets or the dependencies, if its path is one of
/// their slots. A key sees the same before and after a change that doesn't touch it. An undo is
/// refused if a later reading has a key that its changes touch. Allocates no memory.
pub fn touches(change: &Change, key: &Key) -> bool
    ensures { result ≡ touches change.now key.now }
{
    match key {
        Key::Cell(path) => change.path.text() == path.text(),
        Key::Marked(scope, name) => {
            is_marked(*scope, name, &change.path, &change.before)
                || is_marked(*scope, name, &change.path, &change.after)
        }
        Key::Presets => Slot::is_of_preset(&change.path),
        Key::Links => Slot::is_of_dependency(&change.path),
    }
}

fn is_marked(scope: Scope, name: &UnitName, path: &TreePath, entry: &Option<Entry>) -> bool
    ensures { result ≡ is_marked scope name.now path.now entry.now }
{
    match entry {
        None => false,
        Some(entry) => belongs(scope, name, path, entry),
    }
}
