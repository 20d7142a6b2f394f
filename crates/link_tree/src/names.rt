//! The links of a scope by the names to which they belong: `systemctl disable` removes the links of
//! a name.
ghost use Rattle.std.specs.Prelude.{◌≡◌, ◌∷◌, ◌++◌, [], ℕ, List, cond, IfOk, OnOk};
ghost use Rattle.std.specs.FinMap as map;
ghost use Rattle.std.specs.Option.{option_copied};
ghost use Rattle.std.specs.Str.{bytes_eq};
ghost use Rattle.name_lists.specs.Lists.{listed};
ghost use Rattle.link_tree.specs.Links.{belongs};
ghost use Rattle.link_tree.specs.Trees.{Entries, set_entry};
ghost use Rattle.link_tree.specs.Pieces.{joined};
ghost use Rattle.link_tree.specs.Belonging.{paths_of, belonging, holds_at, may_belong, other_name, is_end, IsListed};

use crate::belonging::{last_part, may_belong, text_belongs};
use crate::entry::Entry;
use crate::piece::Piece;
use crate::placed_entry::PlacedEntry;
use crate::tree_part::TreePart;
use name_lists::{Listing, NameLists, relisted};
use std::alloc::{AllocError, Global};
use unit_name::{Kind, kind_in};
use unit_paths::{Scope, Target, TreePath};

/// The links of a scope by their names, in one pass over the entries.
pub(crate) fn names_of(
    alloc: Global,
    part: &TreePart,
    scope: Scope,
) -> Result<NameLists, AllocError>
    ensures { IfOk result (IsListed scope part.now) }
{
    let mut lists = NameLists::none(alloc)?;
    list_pieces(alloc, &mut lists, scope, part.pieces())?;
    Ok(lists)
}

fn list_pieces(
    alloc: Global,
    lists: &mut NameLists,
    scope: Scope,
    pieces: &[Piece],
) -> Result<(), AllocError>
    ensures { OnOk result ((text : List ℕ) → listed lists.new text ≡ listed lists.old text ++ paths_of scope text (joined pieces.now)) }
{
    for piece in pieces {
        list_piece(alloc, lists, scope, piece.items())?;
    }
    Ok(())
}

fn list_piece(
    alloc: Global,
    lists: &mut NameLists,
    scope: Scope,
    items: &[PlacedEntry],
) -> Result<(), AllocError>
    ensures { OnOk result ((text : List ℕ) → listed lists.new text ≡ listed lists.old text ++ paths_of scope text items.now) }
{
    for item in items {
        list_item(alloc, lists, scope, item.path(), item.entry())?;
    }
    Ok(())
}

/// Appends an entry to the list of each name to which it belongs.
fn list_item(
    alloc: Global,
    lists: &mut NameLists,
    scope: Scope,
    path: &TreePath,
    entry: &Entry,
) -> Result<(), AllocError>
    ensures { OnOk result ((text : List ℕ) → listed lists.new text ≡ cond (belongs scope text path.now entry.now) (listed lists.old text ++ path.now ∷ []) (listed lists.old text)) }
{
    let Entry::Link(target) = entry else {
        return Ok(());
    };
    if !may_belong(scope, path, Some(entry)) {
        return Ok(());
    }
    list_under(alloc, lists, path.file_name(), path)?;
    let Some(name) = other_name(path, target) else {
        return Ok(());
    };
    list_under(alloc, lists, name, path)?;
    Ok(())
}

/// The name at the end of a link's target, if it differs from the link's own name and the link
/// belongs to it too: it is not an instance's.
fn other_name<'a>(path: &TreePath, target: &'a Target) -> Option<&'a [u8]>
    ensures { option_copied result ≡ other_name path.now target.now }
{
    let end = last_part(target.text());
    if end == path.file_name() || kind_in(end) == Kind::Instance {
        return None;
    }
    Some(end)
}

fn list_under(
    alloc: Global,
    lists: &mut NameLists,
    name: &[u8],
    path: &TreePath,
) -> Result<(), AllocError>
    ensures { OnOk result ((text : List ℕ) → listed lists.new text ≡ cond (bytes_eq text name.now) (listed lists.old text ++ path.now ∷ []) (listed lists.old text)) }
{
    let path = path.copy()?;
    lists.change(alloc, name, Listing::OneMore(path))?;
    Ok(())
}

/// The lists after the entry at a path has changed, as new lists: an error leaves the old ones
/// unchanged.
pub(crate) fn names_after(
    alloc: Global,
    lists: &NameLists,
    scope: Scope,
    path: &TreePath,
    before: Option<&Entry>,
    after: Option<&Entry>,
) -> Result<NameLists, AllocError>
    ensures { IfOk result (λ next. (m : Entries) → map.get m path.now ≡ option_copied before.entry → IsListed scope m lists.now → IsListed scope (set_entry m path.now (option_copied after.entry)) next) }
{
    let mut next = lists.clone()?;
    if !may_belong(scope, path, before) && !may_belong(scope, path, after) {
        return Ok(next);
    }
    relist(
        alloc,
        &mut next,
        lists,
        scope,
        path.file_name(),
        path,
        after,
    )?;
    relist_end(alloc, &mut next, lists, scope, before, path, after)?;
    relist_end(alloc, &mut next, lists, scope, after, path, after)?;
    Ok(next)
}

/// Updates the list of the name at the end of a link's target with what belongs to it after the
/// change, if the link has another name.
fn relist_end(
    alloc: Global,
    next: &mut NameLists,
    lists: &NameLists,
    scope: Scope,
    entry: Option<&Entry>,
    path: &TreePath,
    after: Option<&Entry>,
) -> Result<(), AllocError>
    ensures { OnOk result ((m : Entries) → IsListed scope m lists.now → (text : List ℕ) → listed next.new text ≡ cond (is_end text path.now (option_copied entry.entry)) (belonging scope text (set_entry m path.now (option_copied after.entry))) (listed next.old text)) }
{
    let Some(Entry::Link(target)) = entry else {
        return Ok(());
    };
    let end = last_part(target.text());
    if end == path.file_name() {
        return Ok(());
    }
    relist(alloc, next, lists, scope, end, path, after)?;
    Ok(())
}

/// Updates the list of a name with what belongs to it after the change.
fn relist(
    alloc: Global,
    next: &mut NameLists,
    lists: &NameLists,
    scope: Scope,
    name: &[u8],
    path: &TreePath,
    after: Option<&Entry>,
) -> Result<(), AllocError>
    ensures { OnOk result ((m : Entries) → IsListed scope m lists.now → (text : List ℕ) → listed next.new text ≡ cond (bytes_eq text name.now) (belonging scope text (set_entry m path.now (option_copied after.entry))) (listed next.old text)) }
{
    let listed = holds_at(scope, name, path, after);
    let list = relisted(alloc, listed, path, lists.get(name))?;
    next.change(alloc, name, Listing::Whole(list))?;
    Ok(())
}

/// Whether the entry at a path belongs to a name.
fn holds_at(scope: Scope, name: &[u8], path: &TreePath, entry: Option<&Entry>) -> bool
    ensures { result ≡ holds_at scope name.now path.now (option_copied entry.entry) }
{
    match entry {
        Some(entry) => text_belongs(scope, name, path, entry),
        None => false,
    }
}
