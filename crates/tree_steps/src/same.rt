//! Whether two trees are equal.
ghost use Rattle.std.specs.Prelude.{◌≡◌, true, Some};
ghost use Rattle.std.specs.FinMap as map;
ghost use Rattle.tree_steps.specs.Walks.{AllStandIn};

use link_tree::{Entry, Tree, TreePath};

/// Whether this entry is at a path of a tree.
fn stands(tree: &Tree, path: &TreePath, entry: &Entry) -> bool
    ensures yes { result ≡ true → (map.get tree.now path.now ≡ Some entry.now) }
    ensures no { (map.get tree.now path.now ≡ Some entry.now) → result ≡ true }
{
    match tree.get(path) {
        Some(there) => there.same(entry),
        None => false,
    }
}

/// Whether each entry of a tree is in another.
fn all_stand_in(tree: &Tree, other: &Tree) -> bool
    ensures yes { result ≡ true → AllStandIn tree.now other.now }
    ensures no { AllStandIn tree.now other.now → result ≡ true }
{
    for (path, entry) in tree.iter() {
        if !stands(other, path, entry) {
            return false;
        }
    }
    true
}

/// Whether two trees are equal: the same paths, with the same entries. Allocates no memory.
#[tactic(auto, using(crate::proofs::Alike::same_where_all_stand, crate::proofs::Alike::all_stand_where_same))]
pub fn are_same(one: &Tree, other: &Tree) -> bool
    ensures yes { result ≡ true → (one.now ≡ other.now) }
    ensures no { (one.now ≡ other.now) → result ≡ true }
{
    if !all_stand_in(one, other) {
        return false;
    }
    all_stand_in(other, one)
}
