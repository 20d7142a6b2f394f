//! What keys see in trees.
ghost use Rattle.std.specs.Prelude.{◌≡◌, not, All, IfOk, OnOk, Some, true, false};
ghost use Rattle.std.specs.List.{filter, list_any};
ghost use Rattle.std.specs.Option.{option_copied};
ghost use Rattle.std.specs.FinMap as map;
ghost use Rattle.tree_access.specs.Keys as keys;
ghost use Rattle.tree_access.specs.Keys.{part, is_cell, selects, those, any_selects};
ghost use Rattle.tree_access.specs.Seeing.{AllStand, AllSelected, SeesTheSame, StandsIn, is_marked, walks, marked_by, taken, taken_all};
ghost use Rattle.tree_access.specs.Readings.{Holds};

use crate::key::Key;
use crate::keys::Keys;
use crate::reading::{Observation, Seen};
use link_tree::{Entry, Tree, TreePart, TreePath};
use std::alloc::{AllocError, Global};

impl Key {
    /// What it sees in a tree.
    pub(crate) fn seen(&self, alloc: Global, tree: &Tree) -> Result<Seen, AllocError>
        ensures { IfOk result (λ seen. seen ≡ keys.seen self.now tree.now) }
    {
        self.seen_among(alloc, tree, tree.entries())
    }

    /// The same, but a key that scans all entries looks at what was gathered from the tree.
    pub(crate) fn seen_among(
        &self,
        alloc: Global,
        tree: &Tree,
        gathered: &TreePart,
    ) -> Result<Seen, AllocError>
        requires { SeesTheSame gathered.now tree.now self.now }
        ensures { IfOk result (λ seen. seen ≡ keys.seen self.now tree.now) }
    {
        match self {
            Key::Cell(path) => Ok(Seen::Entry(copy_entry(tree.get(path))?)),
            Key::Marked(..) => Ok(Seen::Entries(self.entries(alloc, tree)?)),
            key => Ok(Seen::Entries(key.walk(alloc, gathered)?)),
        }
    }

    /// The entries of a tree at which a key that isn't a cell looks; all of them are at slots, and
    /// share their texts with the tree. Links that belong to a name are looked up; for other keys
    /// all entries are scanned. Fails only if memory runs out.
    pub fn entries(&self, alloc: Global, tree: &Tree) -> Result<TreePart, AllocError>
        requires { is_cell self.now ≡ false }
        ensures { IfOk result (λ found. found ≡ part self.now tree.now) }
    {
        if !self.is_marked() {
            return self.walk(alloc, tree.entries());
        }
        let mut keys = Keys::none(alloc);
        keys.push(self.copy()?)?;
        keys.look_up(alloc, tree)
    }

    /// Those of these entries at which a key that isn't a cell looks: all of them are scanned.
    fn walk(&self, alloc: Global, entries: &TreePart) -> Result<TreePart, AllocError>
        requires { is_cell self.now ≡ false }
        ensures { IfOk result (λ found. found ≡ part self.now entries.now) }
    {
        let mut found = TreePart::empty(alloc)?;
        let mut left = entries.iter();
        while let Some(placed) = left.next_placed() {
            if self.selects(placed.path(), placed.entry()) {
                found.share_in(placed)?;
            }
        }
        Ok(found)
    }
}

impl Keys {
    /// Whether one of the keys looks at an entry at a path.
    fn any_selects(&self, path: &TreePath, entry: &Entry) -> bool
        ensures { result ≡ any_selects self.now path.now entry.now }
    {
        self.as_slice().iter().any(|key| key.selects(path, entry))
    }

    /// Whether one of the keys looks at something other than the links that belong to a name.
    fn any_other(&self) -> bool
        ensures { result ≡ list_any (λ key. not (is_marked key)) self.now }
    {
        self.as_slice().iter().any(|key| !key.is_marked())
    }

    /// The entries of a tree at which at least one of the keys looks; no key may be a cell. All of
    /// them are at slots, and share their texts with the tree. If all keys look at the links that
    /// belong to a name, these are looked up; otherwise all entries are scanned. Fails only if
    /// memory runs out.
    pub fn entries_of(&self, alloc: Global, tree: &Tree) -> Result<TreePart, AllocError>
        requires { All (λ key. is_cell key ≡ false) self.now }
        ensures { IfOk result (λ found. found ≡ those (any_selects self.now) tree.now) }
    {
        if self.any_other() {
            self.walk(alloc, tree.entries())
        } else {
            self.look_up(alloc, tree)
        }
    }

    /// The same for these entries, all of which are scanned.
    fn walk(&self, alloc: Global, entries: &TreePart) -> Result<TreePart, AllocError>
        requires { All (λ key. is_cell key ≡ false) self.now }
        ensures { IfOk result (λ found. found ≡ those (any_selects self.now) entries.now) }
    {
        let mut found = TreePart::empty(alloc)?;
        let mut left = entries.iter();
        while let Some(placed) = left.next_placed() {
            if self.any_selects(placed.path(), placed.entry()) {
                found.share_in(placed)?;
            }
        }
        Ok(found)
    }
}

impl Keys {
    /// The links that belong to the names of the keys.
    fn look_up(&self, alloc: Global, tree: &Tree) -> Result<TreePart, AllocError>
        requires { All (λ key. is_marked key ≡ true) self.now }
        ensures { IfOk result (λ found. found ≡ those (any_selects self.now) tree.now) }
    {
        let mut found = TreePart::empty(alloc)?;
        for key in self.as_slice() {
            self.take_marked(&mut found, tree, key)?;
        }
        Ok(found)
    }

    /// Adds the links that belong to the name of one of the keys.
    fn take_marked(&self, found: &mut TreePart, tree: &Tree, key: &Key) -> Result<(), AllocError>
        requires { All (λ key. is_marked key ≡ true) self.now }
        ensures { OnOk result (found.new ≡ taken_all (any_selects self.now) tree.now (marked_by key.now tree.now) found.old) }
    {
        match key {
            Key::Marked(scope, name) => self.take_all(found, tree, tree.belonging(*scope, name)),
            _ => Ok(()),
        }
    }

    /// Adds the entry at each of the paths.
    fn take_all(
        &self,
        found: &mut TreePart,
        tree: &Tree,
        paths: &[TreePath],
    ) -> Result<(), AllocError>
        requires { All (λ key. is_marked key ≡ true) self.now }
        ensures { OnOk result (found.new ≡ taken_all (any_selects self.now) tree.now paths.now found.old) }
    {
        for path in paths {
            self.take(found, tree, path)?;
        }
        Ok(())
    }

    /// Adds the entry at a path, if one of the keys looks at it.
    fn take(&self, found: &mut TreePart, tree: &Tree, path: &TreePath) -> Result<(), AllocError>
        requires { All (λ key. is_marked key ≡ true) self.now }
        ensures { OnOk result (found.new ≡ taken (any_selects self.now) tree.now path.now found.old) }
    {
        let Some(placed) = tree.placed(path) else {
            return Ok(());
        };
        if self.any_selects(placed.path(), placed.entry()) {
            found.share_in(placed)?;
        }
        Ok(())
    }
}

impl Keys {
    /// Those of the keys for which all entries are scanned.
    fn walkers(&self, alloc: Global) -> Result<Keys, AllocError>
        ensures { IfOk result (λ walkers. walkers ≡ filter walks self.now) }
    {
        let mut walkers = Keys::none(alloc);
        for key in self.as_slice() {
            if key.walks() {
                walkers.push(key.copy()?)?;
            }
        }
        Ok(walkers)
    }

    /// Entries in which the keys that scan all entries see what they see in the tree. If there are
    /// several such keys, these are only the entries at which one of them looks, so that the whole
    /// tree is walked once for all of them.
    pub(crate) fn gather(&self, alloc: Global, tree: &Tree) -> Result<TreePart, AllocError>
        ensures { IfOk result (λ gathered. All (SeesTheSame gathered tree.now) self.now) }
    {
        let walkers = self.walkers(alloc)?;
        if walkers.as_slice().len() < 2 {
            return tree.entries().share();
        }
        walkers.walk(alloc, tree.entries())
    }
}

/// Whether this entry is at a path.
fn stands(tree: &TreePart, path: &TreePath, entry: &Entry) -> bool
    ensures yes { result ≡ true → (map.get tree.now path.now ≡ Some entry.now) }
    ensures no { (map.get tree.now path.now ≡ Some entry.now) → result ≡ true }
{
    match tree.get(path) {
        Some(there) => there.same(entry),
        None => false,
    }
}

/// Whether a path has exactly this entry, or none if this is `None`.
fn is_there(tree: &Tree, path: &TreePath, entry: &Option<Entry>) -> bool
    ensures yes { result ≡ true → (map.get tree.now path.now ≡ entry.now) }
    ensures no { (map.get tree.now path.now ≡ entry.now) → result ≡ true }
{
    match (tree.get(path), entry) {
        (None, None) => true,
        (Some(there), Some(entry)) => there.same(entry),
        _ => false,
    }
}

/// Whether this entry is at a path, if a key looks at it.
fn stands_if_selected(tree: &TreePart, key: &Key, path: &TreePath, entry: &Entry) -> bool
    ensures yes { result ≡ true → selects key.now path.now entry.now ≡ true → map.get tree.now path.now ≡ Some entry.now }
    ensures no { (selects key.now path.now entry.now ≡ true → map.get tree.now path.now ≡ Some entry.now) → result ≡ true }
{
    if !key.selects(path, entry) {
        return true;
    }
    stands(tree, path, entry)
}

/// Whether all entries of a tree that a key looks at are also in another.
fn all_stand(tree: &TreePart, key: &Key, other: &TreePart) -> bool
    ensures yes { result ≡ true → AllStand key.now tree.now other.now }
    ensures no { AllStand key.now tree.now other.now → result ≡ true }
{
    for (path, entry) in tree.iter() {
        if !stands_if_selected(other, key, path, entry) {
            return false;
        }
    }
    true
}

/// Whether a key looks at all entries of a tree.
fn all_selected(tree: &TreePart, key: &Key) -> bool
    ensures yes { result ≡ true → AllSelected key.now tree.now }
    ensures no { AllSelected key.now tree.now → result ≡ true }
{
    for (path, entry) in tree.iter() {
        if !key.selects(path, entry) {
            return false;
        }
    }
    true
}

/// Whether the entry at each of the paths, if a key looks at it, is also in another tree.
fn each_stands(tree: &Tree, key: &Key, paths: &[TreePath], other: &TreePart) -> bool
    ensures yes { result ≡ true → All (StandsIn key.now tree.now other.now) paths.now }
    ensures no { All (StandsIn key.now tree.now other.now) paths.now → result ≡ true }
{
    for path in paths {
        if !stands_as_in(tree, key, path, other) {
            return false;
        }
    }
    true
}

/// Whether the entry at a path, if a key looks at it, is also in another tree.
fn stands_as_in(tree: &Tree, key: &Key, path: &TreePath, other: &TreePart) -> bool
    ensures yes { result ≡ true → StandsIn key.now tree.now other.now path.now }
    ensures no { StandsIn key.now tree.now other.now path.now → result ≡ true }
{
    match tree.get(path) {
        Some(entry) => stands_if_selected(other, key, path, entry),
        None => true,
    }
}

/// Whether all entries of a tree that a key looks at are also in another: those that belong to its
/// name are looked up.
fn all_looked_at_stand(tree: &Tree, key: &Key, other: &TreePart) -> bool
    ensures yes { result ≡ true → AllStand key.now tree.now other.now }
    ensures no { AllStand key.now tree.now other.now → result ≡ true }
{
    match key {
        Key::Marked(scope, name) => each_stands(tree, key, tree.belonging(*scope, name), other),
        _ => all_stand(tree.entries(), key, other),
    }
}

/// Whether these are the entries of a tree that a key looks at.
fn is_part(entries: &TreePart, tree: &Tree, key: &Key) -> bool
    ensures yes { result ≡ true → (part key.now tree.now ≡ entries.now) }
    ensures no { (part key.now tree.now ≡ entries.now) → result ≡ true }
{
    if !all_selected(entries, key) {
        return false;
    }
    if !all_stand(entries, key, tree.entries()) {
        return false;
    }
    all_looked_at_stand(tree, key, entries)
}

impl Observation {
    /// Whether the key sees in a tree what it saw.
    pub(crate) fn holds(&self, tree: &Tree) -> bool
        ensures yes { result ≡ true → Holds tree.now self.now }
        ensures no { Holds tree.now self.now → result ≡ true }
    {
        match (&self.key, &self.seen) {
            (Key::Cell(path), Seen::Entry(entry)) => is_there(tree, path, entry),
            (Key::Cell(_), Seen::Entries(_)) | (_, Seen::Entry(_)) => false,
            (key, Seen::Entries(entries)) => is_part(entries, tree, key),
        }
    }
}

/// A copy of the entry, or `None` if there is none. Fails only if memory runs out.
pub fn copy_entry(entry: Option<&Entry>) -> Result<Option<Entry>, AllocError>
    ensures { IfOk result (λ copy. copy ≡ option_copied entry.entry) }
{
    match entry {
        Some(entry) => Ok(Some(entry.copy()?)),
        None => Ok(None),
    }
}
