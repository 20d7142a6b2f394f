//! What an operation looked at, with what it saw.
ghost use Rattle.std.specs.Prelude.{◌≡◌, ◌++◌, ◌∷◌, [], IfOk, OnOk, OnErr, MatchResult};
ghost use Rattle.link_tree.specs.Trees.{Entries};
ghost use Rattle.tree_access.specs.declared.reading.Seen.TheVariants as sees;
ghost use Rattle.tree_access.specs.Keys.{seen};
ghost use Rattle.tree_access.specs.Readings.{reading_of, HoldsIn, IsFirstOther};

use crate::key::Key;
use link_tree::{Entry, Tree, TreePart, copy_of};
use smallvec::{IntoIter, SmallVec};
use std::alloc::{AllocError, Global};
use std::marker::Model;

/// What a key saw of a tree.
#[derive(Debug, Drop)]
pub enum Seen {
    /// The entry at the cell.
    Entry(Option<Entry>),
    /// The entries that the key looks at, all of which are at slots.
    Entries(TreePart),
}

impl Seen {
    /// A copy of it. Fails only if memory runs out.
    pub fn copy(&self) -> Result<Seen, AllocError>
        ensures { IfOk result (λ seen. seen ≡ self.now) }
    {
        match self {
            Seen::Entry(entry) => Ok(Seen::Entry(copy_of(entry)?)),
            Seen::Entries(entries) => Ok(Seen::Entries(entries.copy()?)),
        }
    }
}

/// A key, and what it saw.
#[derive(Debug, Drop)]
pub struct Observation {
    pub key: Key,
    pub seen: Seen,
}

/// Fills a reading's unused capacity; it is never read.
impl Default for Observation {
    ghost use Rattle.std.specs.Prelude.{◌≡◌, None};
    ghost use Rattle.tree_access.specs.declared.key.Key.TheVariants.{Links};
    ghost use Rattle.tree_access.specs.declared.reading.Seen.TheVariants as sees;

    ghost is_default = { λ observation. observation ≡ record { key = Links; seen = sees.Entry None } };

    fn default() -> Observation {
        Observation {
            key: Key::Links,
            seen: Seen::Entry(None),
        }
    }
}

impl Observation {
    /// A copy of the observation. Fails only if memory runs out.
    pub fn copy(&self) -> Result<Observation, AllocError>
        ensures { IfOk result (λ observation. observation ≡ self.now) }
    {
        Ok(Observation {
            key: self.key.copy()?,
            seen: self.seen.copy()?,
        })
    }
}

/// How many observations a reading holds without allocating memory: most commands look at one cell
/// or two.
const FEW: usize = 2;

/// An iterator over observations.
pub(crate) type Observations = IntoIter<Observation, FEW>;

/// The keys that an operation looked at, each once and in order, and what each saw of the tree.
/// Contracts see the list.
#[derive(Debug, Drop)]
pub struct Reading {
    observations: SmallVec<Observation, FEW>,
}

impl Model for Reading {
    ghost use Rattle.std.specs.Prelude.{List};
    ghost use Rattle.std.specs.Coded.{codes};
    ghost use Rattle.std.specs.FinMap as map;
    ghost use Rattle.link_tree.specs.Trees.{path_cmp};
    ghost use Rattle.link_tree.specs.Values.{coded_path, coded_entry};
    ghost use Rattle.tree_access.specs.declared.reading.Observation.{Observation};

    ghost Value = { List Observation };

    ghost coded = { Prim.hlevel (codes, map.code {R = path_cmp} coded_path coded_entry) };

    ghost view = { λ reading. reading.observations.items };
}

impl Reading {
    /// A reading by no keys. Allocates no memory.
    pub fn none(alloc: Global) -> Reading
        ensures { result ≡ [] }
    {
        Reading {
            observations: SmallVec::new(alloc),
        }
    }

    /// The reading by one key that isn't a cell, if the entries at which it looks are already
    /// known. Fails only if memory runs out.
    pub fn of_entries(alloc: Global, key: Key, entries: TreePart) -> Result<Reading, AllocError>
        ensures { IfOk result (λ reading. (t : Entries) → seen key t ≡ sees.Entries entries → reading ≡ reading_of (key ∷ []) t) }
    {
        let mut reading = Reading::none(alloc);
        reading.push(Observation {
            key,
            seen: Seen::Entries(entries),
        })?;
        Ok(reading)
    }

    pub(crate) fn push(&mut self, observation: Observation) -> Result<(), AllocError>
        ensures ok { OnOk result (self.new ≡ self.old ++ observation ∷ []) }
        ensures err { OnErr result (self.new ≡ self.old) }
    {
        Ok(self.observations.push(observation)?)
    }

    /// The observations, in the order of their keys.
    pub fn as_slice(&self) -> &[Observation]
        ensures { result.now ≡ self.now }
    {
        self.observations.as_slice()
    }

    /// An iterator over the observations.
    pub(crate) fn into_observations(self) -> Observations
        ensures { result ≡ self }
    {
        self.observations.into_iter()
    }

    /// A copy of the reading. Fails only if memory runs out.
    pub fn copy(&self) -> Result<Reading, AllocError>
        ensures { IfOk result (λ reading. reading ≡ self.now) }
    {
        let mut copy = Reading::none(*self.observations.allocator());
        for observation in self.as_slice() {
            copy.push(observation.copy()?)?;
        }
        Ok(copy)
    }
}

/// Whether a tree agrees with a reading: each of its keys sees there what it saw. The error is the
/// first key that sees something else. Allocates no memory.
pub fn agrees<'a>(tree: &Tree, reading: &'a Reading) -> Result<(), &'a Key>
    ensures { MatchResult result (λ _. HoldsIn tree.now reading.now) (λ key. IsFirstOther tree.now reading.now key.now) }
{
    for observation in reading.as_slice() {
        if !observation.holds(tree) {
            return Err(&observation.key);
        }
    }
    Ok(())
}
