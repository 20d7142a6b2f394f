//! Merging two readings into one: of a tree, and of the tree after changes to it.
ghost use Rattle.std.specs.Prelude.{◌≡◌, ◌++◌, ◌∷◌, ◌<◌, ◌+◌, [], length, IfOk, IfSome, MatchOption, OnOk};
ghost use Rattle.std.specs.List.{list_any};
ghost use Rattle.link_tree.specs.Trees.{AreFrom, after_changes};
ghost use Rattle.tree_access.specs.Keys as keys;
ghost use Rattle.tree_access.specs.Merging.{turn, IsReading};
ghost use Rattle.tree_access.specs.Readings.{keys_of, observed, reading_of, Holds};

use crate::key::Key;
use crate::reading::{Observation, Observations, Reading};
use crate::touching::touches;
use link_tree::{Change, Tree};
use std::alloc::{AllocError, Global};
use std::cmp::Ordering;

/// Whether one of the changes touches what a key looks at.
fn is_touched(changes: &[Change], key: &Key) -> bool
    ensures { result ≡ list_any (λ change. keys.touches change key.now) changes.now }
{
    changes.iter().any(|change| touches(change, key))
}

impl Observation {
    /// What its key sees in a tree, derived from what it saw in the tree after changes. A set that
    /// no change touches is as it was, which avoids a walk through the tree; looking at a cell
    /// again costs no more than comparing it with one change.
    fn before(
        self,
        alloc: Global,
        tree: &Tree,
        changes: &[Change],
    ) -> Result<Observation, AllocError>
        requires from { AreFrom tree.now changes.now }
        requires holds { Holds (after_changes changes.now tree.now) self }
        ensures { IfOk result (λ before. before ≡ observed tree.now self.key) }
    {
        if !self.key.is_cell() && !is_touched(changes, &self.key) {
            return Ok(self);
        }
        let seen = self.key.seen(alloc, tree)?;
        Ok(Observation {
            key: self.key,
            seen,
        })
    }
}

/// Which of two readings has the next key: both if the keys are the same, and the second if none is
/// left.
fn turn(first: &[Observation], second: &[Observation]) -> Ordering
    ensures { result ≡ turn first.now second.now }
{
    match (first, second) {
        ([], _) => Ordering::Greater,
        (_, []) => Ordering::Less,
        ([one, ..], [other, ..]) => one.key.cmp(&other.key),
    }
}

/// The next observation of both readings, as one observation of the tree. What the first saw is
/// kept as it is.
fn next_of_both(
    alloc: Global,
    tree: &Tree,
    changes: &[Change],
    first: &mut Observations,
    second: &mut Observations,
) -> Result<Option<Observation>, AllocError>
    requires from { AreFrom tree.now changes.now }
    requires first { IsReading tree.now first.old }
    requires second { IsReading (after_changes changes.now tree.now) second.old }
    ensures next { IfOk result (λ next. MatchOption next (reading_of (keys_of first.old ++ keys_of second.old) tree.now ≡ []) (λ one. reading_of (keys_of first.old ++ keys_of second.old) tree.now ≡ one ∷ reading_of (keys_of first.new ++ keys_of second.new) tree.now)) }
    ensures first { IsReading tree.now first.new }
    ensures second { IsReading (after_changes changes.now tree.now) second.new }
    ensures fewer { IfOk result (λ next. IfSome next (λ _. length first.new + length second.new < length first.old + length second.old)) }
{
    match turn(first.as_slice(), second.as_slice()) {
        Ordering::Less => Ok(first.next()),
        Ordering::Equal => {
            second.next();
            Ok(first.next())
        }
        Ordering::Greater => match second.next() {
            Some(observation) => Ok(Some(observation.before(alloc, tree, changes)?)),
            None => Ok(None),
        },
    }
}

/// Adds to a reading what is left of both, as observations of the tree.
fn read_both(
    alloc: Global,
    tree: &Tree,
    changes: &[Change],
    first: &mut Observations,
    second: &mut Observations,
    reading: &mut Reading,
) -> Result<(), AllocError>
    requires from { AreFrom tree.now changes.now }
    requires first { IsReading tree.now first.old }
    requires second { IsReading (after_changes changes.now tree.now) second.old }
    ensures { OnOk result (reading.new ≡ reading.old ++ reading_of (keys_of first.old ++ keys_of second.old) tree.now) }
{
    'keys: while let Some(observation) = next_of_both(alloc, tree, changes, first, second)? {
        reading.push(observation)?;
    }
    Ok(())
}

impl Reading {
    /// The reading of the tree by the keys of both, where the later one is a reading of the tree
    /// after the changes. What no change touches is kept as it was seen. Fails only if memory runs
    /// out.
    pub fn and_then(
        self,
        alloc: Global,
        tree: &Tree,
        changes: &[Change],
        later: Reading,
    ) -> Result<Reading, AllocError>
        requires from { AreFrom tree.now changes.now }
        requires first { IsReading tree.now self }
        requires second { IsReading (after_changes changes.now tree.now) later }
        ensures { IfOk result (λ reading. reading ≡ reading_of (keys_of self ++ keys_of later) tree.now) }
    {
        let mut first = self.into_observations();
        let mut second = later.into_observations();
        let mut reading = Reading::none(alloc);
        read_both(alloc, tree, changes, &mut first, &mut second, &mut reading)?;
        Ok(reading)
    }
}
