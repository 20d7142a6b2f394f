//! Which links belong to a name.
ghost use Rattle.std.specs.Prelude.{◌≡◌};
ghost use Rattle.std.specs.List.{after_last};
ghost use Rattle.unit_paths.specs.Paths.{is_slash};
ghost use Rattle.unit_paths.specs.Slots.{slot_of};
ghost use Rattle.std.specs.Option.{option_copied};
ghost use Rattle.link_tree.specs.Links.{is_of_scope, is_named, belongs};
ghost use Rattle.link_tree.specs.Belonging.{may_belong};

use crate::entry::{Entry, is_null_link};
use unit_name::{Kind, UnitName, kind_in};
use unit_paths::{Scope, Slot, Target, TreePath, is_null_target};

/// Whether a path is the slot of a unit or of a dependency in the scope.
fn is_of_scope(scope: Scope, path: &TreePath) -> bool
    ensures { result ≡ is_of_scope scope (slot_of path.now) }
{
    match (scope, Slot::scope_of(path)) {
        (Scope::Etc, Some(Scope::Etc)) | (Scope::Run, Some(Scope::Run)) => true,
        (Scope::Etc, Some(Scope::Run)) | (Scope::Run, Some(Scope::Etc)) => false,
        (Scope::Etc | Scope::Run, None) => false,
    }
}

/// The part of a target after its last slash, or all of it if it has no slash.
pub fn last_part(target: &[u8]) -> &[u8]
    ensures { result.now ≡ after_last is_slash target.now }
{
    for i in (0..target.len()).rev() {
        if target[i] == b'/' {
            return &target[i + 1..];
        }
    }
    target
}

/// Whether the entry at a path is a link of the scope that does not lead to `/dev/null`.
pub(crate) fn may_belong(scope: Scope, path: &TreePath, entry: Option<&Entry>) -> bool
    ensures { result ≡ may_belong scope path.now (option_copied entry.entry) }
{
    match entry {
        Some(Entry::Link(target)) => is_of_scope(scope, path) && !is_null_target(path, target),
        _ => false,
    }
}

/// Whether a link has this name, or its target ends with it after its last slash, unless the name
/// is an instance's.
fn is_named(name: &[u8], path: &TreePath, target: &Target) -> bool
    ensures { result ≡ is_named name.now path.now target.now }
{
    path.file_name() == name
        || (kind_in(name) != Kind::Instance && last_part(target.text()) == name)
}

/// Whether the entry at a path is a link of the scope that belongs to a name, so that `systemctl
/// disable` removes it: either its own file name is the name, or the name is not an instance's and
/// is the part of the link's target after the last slash. A link to `/dev/null` belongs to no name,
/// and neither does a file.
pub fn belongs(scope: Scope, name: &UnitName, path: &TreePath, entry: &Entry) -> bool
    ensures { result ≡ belongs scope name.now path.now entry.now }
{
    text_belongs(scope, name.text(), path, entry)
}

/// The same, for a name given as any text.
#[tactic(auto, unfolding(crate::specs::Links::belongs))]
pub(crate) fn text_belongs(scope: Scope, name: &[u8], path: &TreePath, entry: &Entry) -> bool
    ensures { result ≡ belongs scope name.now path.now entry.now }
{
    match entry {
        Entry::File(_) => false,
        // (most of the entries visited have another name, and this is the fastest test)
        Entry::Link(target) if !is_named(name, path, target) => false,
        Entry::Link(_) => is_of_scope(scope, path) && !is_null_link(path, entry),
    }
}
