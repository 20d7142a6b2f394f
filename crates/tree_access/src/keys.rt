//! Keys that were looked at.
ghost use Rattle.std.specs.Prelude.{◌≡◌, ◌++◌, ◌∷◌, [], All, IfOk, OnOk, OnErr, map as list_map};
ghost use Rattle.std.specs.FinMap as map;
ghost use Rattle.tree_access.specs.declared.key.Key.TheVariants as keys;
ghost use Rattle.tree_access.specs.Order.{set_of};
ghost use Rattle.tree_access.specs.Readings.{observed, reading_of};
ghost use Rattle.tree_access.specs.Seeing.{SeesTheSame};

use crate::key::Key;
use crate::reading::{Observation, Reading};
use link_tree::{Tree, TreePart};
use load_path::Cells;
use smallvec::SmallVec;
use std::alloc::{AllocError, Global};
use std::collections::BTreeSet;
use std::marker::Model;

/// How many keys a list holds without allocating memory: most commands look at fewer.
const FEW: usize = 8;

/// Keys in the order in which they were looked at, possibly with repetitions. Contracts see the
/// list.
#[derive(Debug, Drop)]
pub struct Keys {
    items: SmallVec<Key, FEW>,
}

impl Model for Keys {
    ghost use Rattle.std.specs.Prelude.{List};
    ghost use Rattle.tree_access.specs.declared.key.Key.{Key};

    ghost Value = { List Key };

    ghost view = { λ keys. keys.items.items };
}

impl Keys {
    /// No keys yet. Allocates no memory.
    pub fn none(alloc: Global) -> Keys
        ensures { result ≡ [] }
    {
        Keys {
            items: SmallVec::new(alloc),
        }
    }

    /// Adds a key. If memory runs out, the list stays as it was.
    pub fn push(&mut self, key: Key) -> Result<(), AllocError>
        ensures ok { OnOk result (self.new ≡ self.old ++ key ∷ []) }
        ensures err { OnErr result (self.new ≡ self.old) }
    {
        Ok(self.items.push(key)?)
    }

    /// Adds a key for each of the cells, in order. If memory runs out, the list stays as it was.
    pub fn push_cells(&mut self, cells: Cells) -> Result<(), AllocError>
        ensures ok { OnOk result (self.new ≡ self.old ++ list_map keys.Cell cells) }
        ensures err { OnErr result (self.new ≡ self.old) }
    {
        let mut more = Keys::none(*self.items.allocator());
        for path in cells.into_paths() {
            more.push(Key::Cell(path))?;
        }
        self.append(more)
    }

    /// Adds these keys, in their order. If memory runs out, the list stays as it was.
    pub fn append(&mut self, mut more: Keys) -> Result<(), AllocError>
        ensures ok { OnOk result (self.new ≡ self.old ++ more) }
        ensures err { OnErr result (self.new ≡ self.old) }
    {
        self.items.append(&mut more.items)
    }

    /// The keys, in the order in which they were added.
    pub fn as_slice(&self) -> &[Key]
        ensures { result.now ≡ self.now }
    {
        self.items.as_slice()
    }
}

/// Keys, each once. Contracts see the set.
#[derive(Drop)]
struct KeySet {
    keys: BTreeSet<Key>,
}

impl Model for KeySet {
    ghost use Rattle.std.specs.Coded.{codes};
    ghost use Rattle.std.specs.FinSet as set;
    ghost use Rattle.tree_access.specs.Order.{KeySet, set_of};

    ghost Value = { KeySet };

    ghost coded = { set.code (Prim.hlevel codes) };

    ghost view = { λ these. set_of these.keys.keys };
}

impl KeySet {
    fn none(alloc: Global) -> KeySet
        ensures { result ≡ map.empty }
    {
        KeySet {
            keys: BTreeSet::new(alloc),
        }
    }

    fn insert(&mut self, key: Key) -> Result<(), AllocError>
        ensures { OnOk result (self.new ≡ map.insert self.old key tt) }
    {
        self.keys.insert(key)?;
        Ok(())
    }

    /// The set of these keys.
    fn of(alloc: Global, keys: Keys) -> Result<KeySet, AllocError>
        ensures { IfOk result (λ these. these ≡ set_of keys) }
    {
        let mut these = KeySet::none(alloc);
        for key in keys.items {
            these.insert(key)?;
        }
        Ok(these)
    }

    /// What each key sees of a tree. Keys that aren't cells see the same in what was gathered from
    /// the tree as in the tree itself.
    fn read(self, alloc: Global, tree: &Tree, gathered: &TreePart) -> Result<Reading, AllocError>
        requires { All (SeesTheSame gathered.now tree.now) (map.keys self) }
        ensures { IfOk result (λ reading. reading ≡ list_map (observed tree.now) (map.keys self)) }
    {
        let mut reading = Reading::none(alloc);
        for key in self.keys {
            let seen = key.seen_among(alloc, tree, gathered)?;
            reading.push(Observation { key, seen })?;
        }
        Ok(reading)
    }
}

impl Reading {
    /// Reads a tree by keys: each key once, in the order of keys, with what it sees. Fails only if
    /// memory runs out.
    #[tactic(auto, unfolding(crate::specs::Readings::in_order))]
    pub fn of(alloc: Global, tree: &Tree, keys: Keys) -> Result<Reading, AllocError>
        ensures { IfOk result (λ reading. reading ≡ reading_of keys tree.now) }
    {
        let gathered = keys.gather(alloc, tree)?;
        KeySet::of(alloc, keys)?.read(alloc, tree, &gathered)
    }
}
