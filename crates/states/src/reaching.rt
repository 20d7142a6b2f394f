//! The names that are reached by steps.
ghost use Rattle.std.specs.Prelude.{◌≡◌, ◌≢◌, ◌<◌, ◌^◌, [], IfOk, IfSome, OnOk, slice_get};
ghost use Rattle.std.specs.Option.{option_copied};
ghost use Rattle.std.specs.FinMap as map;
ghost use Rattle.unit_name.specs.Parts.{kind_of};
ghost use Rattle.unit_name.specs.Name.{instance_of};
ghost use Rattle.states.specs.Dependencies.{end_for, ends_for, next_names, dependencies, set_of};
ghost use Rattle.states.specs.Reaching.{ends_at, with_name, with_names, AreReached, names_but};

use crate::ends::Ends;
use footprint::Units;
use indexmap::IndexSet;
use link_tree::TreePart;
use load_path::put_in;
use std::alloc::{AllocError, Global};
use std::collections::BTreeSet;
use std::marker::Model;
use unit_name::{Kind, UnitName};

/// Names, each once, in the order in which they were found.
#[derive(Drop)]
struct Names {
    names: IndexSet<UnitName>,
}

impl Model for Names {
    ghost use Rattle.std.specs.Prelude.{List, ℕ};

    ghost Value = { List (List ℕ) };

    ghost view = { λ found. found.names.keys };
}

impl Names {
    fn none(alloc: Global) -> Names
        ensures { result ≡ [] }
    {
        Names {
            names: IndexSet::new(alloc),
        }
    }

    /// Adds a name at the end, unless it is there already.
    #[tactic(auto, unfolding(crate::specs::Reaching::with_name))]
    fn add(&mut self, name: UnitName) -> Result<(), AllocError>
        ensures { OnOk result (self.new ≡ with_name self.old name) }
    {
        self.names.insert(name)?;
        Ok(())
    }

    /// The name at a position, counted from 0.
    fn get(&self, place: usize) -> Option<&UnitName>
        ensures name { option_copied result ≡ slice_get self.now place }
        ensures within { IfSome result (λ name. place < 2 ^ 63) }
    {
        if place >= self.names.len() {
            return None;
        }
        self.names.get_index(place)
    }

    /// Adds these names.
    fn add_all(&mut self, more: &[UnitName]) -> Result<(), AllocError>
        ensures { OnOk result (self.new ≡ with_names self.old more.now) }
    {
        for name in more {
            self.add(name.copy()?)?;
        }
        Ok(())
    }

    /// Adds the names to which one step leads from a name.
    #[tactic(auto, unfolding(crate::specs::Dependencies::next_names))]
    fn add_next(
        &mut self,
        alloc: Global,
        reverse: bool,
        name: &UnitName,
        ends: &Ends,
    ) -> Result<(), AllocError>
        ensures { OnOk result (self.new ≡ with_names self.old (next_names reverse (ends_at ends.now) name.now)) }
    {
        self.add_all(ends.at(name))?;
        match name.kind() {
            Kind::Plain | Kind::Template => Ok(()),
            Kind::Instance => {
                let template = name.template(alloc)?;
                self.add_ends_for(alloc, reverse, name, ends.at(&template))
            }
        }
    }

    /// Adds the names to which the steps from a template lead an instance.
    fn add_ends_for(
        &mut self,
        alloc: Global,
        reverse: bool,
        name: &UnitName,
        ends: &[UnitName],
    ) -> Result<(), AllocError>
        ensures { OnOk result (self.new ≡ with_names self.old (ends_for reverse (instance_of name.now) ends.now Kind.Instance)) }
    {
        for end in ends {
            if let Some(end) = end_for(alloc, reverse, name, end)? {
                self.add(end)?;
            }
        }
        Ok(())
    }

    /// The names except one, in byte order. Fails only if memory runs out.
    fn in_order_without(self, alloc: Global, left_out: &UnitName) -> Result<Units, AllocError>
        ensures { IfOk result (λ names. names ≡ names_but self left_out.now) }
    {
        let set = self.set_without(alloc, left_out)?;
        in_order(alloc, set)
    }

    /// The set of the names except one.
    fn set_without(
        self,
        alloc: Global,
        left_out: &UnitName,
    ) -> Result<BTreeSet<UnitName>, AllocError>
        ensures { IfOk result (λ set. set_of set.keys ≡ map.remove (set_of self) left_out.now) }
    {
        let mut set = BTreeSet::new(alloc);
        for name in self.names {
            if name != *left_out {
                set.insert(name)?;
            }
        }
        Ok(set)
    }
}

/// The names of a set, in byte order.
fn in_order(alloc: Global, set: BTreeSet<UnitName>) -> Result<Units, AllocError>
    ensures { IfOk result (λ names. names ≡ map.keys (set_of set.keys)) }
{
    let mut names = Units::none(alloc);
    for name in set {
        names.push(name)?;
    }
    Ok(names)
}

/// Where a step from a template to `end` leads its instance; `None` if it leads the instance
/// nowhere.
fn end_for(
    alloc: Global,
    reverse: bool,
    name: &UnitName,
    end: &UnitName,
) -> Result<Option<UnitName>, AllocError>
    ensures { IfOk result (λ to. to ≡ end_for reverse (instance_of name.now) end.now (kind_of (instance_of end.now))) }
{
    if end.kind() == Kind::Template {
        put_in(alloc, end, name.instance())
    } else if reverse {
        Ok(None)
    } else {
        Ok(Some(end.copy()?))
    }
}

/// The names that are reached from one name by one step or more.
fn reach(alloc: Global, reverse: bool, from: &UnitName, ends: &Ends) -> Result<Names, AllocError>
    ensures { IfOk result (AreReached (next_names reverse (ends_at ends.now)) from.now) }
{
    let mut found = Names::none(alloc);
    found.add_next(alloc, reverse, from, ends)?;
    let mut place = 0;
    while let Some(name) = found.get(place) {
        let name = name.copy()?;
        found.add_next(alloc, reverse, &name, ends)?;
        place += 1;
    }
    Ok(found)
}

/// The names of the units on which a unit depends, without its own, in byte order; in reverse, of
/// those that depend on it. Fails only if memory runs out.
#[tactic(auto, unfolding(crate::specs::Dependencies::dependencies))]
pub(crate) fn dependencies(
    alloc: Global,
    reverse: bool,
    unit: &UnitName,
    links: &TreePart,
) -> Result<Units, AllocError>
    ensures { IfOk result (λ names. names ≡ map.keys (dependencies reverse unit.now links.now)) }
{
    let ends = Ends::of(alloc, reverse, links)?;
    let found = reach(alloc, reverse, unit, &ends)?;
    found.in_order_without(alloc, unit)
}
