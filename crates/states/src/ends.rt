//! The ends of steps, by the names from which the steps lead.
ghost use Rattle.std.specs.Prelude.{◌≡◌, ◌∷◌, [], IfOk, OnOk};
ghost use Rattle.std.specs.FinMap as map;
ghost use Rattle.states.specs.Dependencies.{steps_of};
ghost use Rattle.states.specs.Reaching.{ends_at, with_step, AreEnds};

use crate::step::Step;
use footprint::Units;
use indexmap::IndexMap;
use link_tree::TreePart;
use std::alloc::{AllocError, Global};
use std::marker::Model;
use unit_name::UnitName;

/// The ends of steps, by the names from which they lead, so that lookup by name is fast. Contracts
/// see this as the finite map.
#[derive(Drop)]
pub(crate) struct Ends {
    by_name: IndexMap<UnitName, Units>,
}

impl Model for Ends {
    ghost use Rattle.std.specs.FinMap as map;
    ghost use Rattle.std.specs.Coded.{coded_list};
    ghost use Rattle.link_tree.specs.Values.{coded_path};
    ghost use Rattle.states.specs.Reaching.{EndMap};

    ghost Value = { EndMap };

    ghost coded = { map.code coded_path (coded_list coded_path) };

    ghost view = { λ ends. map.from_entries ends.by_name.entries };
}

impl Ends {
    /// No steps. Takes no memory.
    fn none(alloc: Global) -> Ends
        ensures { result ≡ map.empty }
    {
        Ends {
            by_name: IndexMap::new(alloc),
        }
    }

    /// Adds one step.
    fn add(&mut self, alloc: Global, step: Step) -> Result<(), AllocError>
        ensures { OnOk result (self.new ≡ with_step self.old step) }
    {
        let Step { from, to } = step;
        match self.by_name.get_mut(&from) {
            Some(ends) => ends.push(to)?,
            None => self.add_first(alloc, from, to)?,
        }
        Ok(())
    }

    /// Adds the first step from a name.
    fn add_first(&mut self, alloc: Global, from: UnitName, to: UnitName) -> Result<(), AllocError>
        ensures { OnOk result (self.new ≡ map.insert self.old from (to ∷ [])) }
    {
        let mut ends = Units::none(alloc);
        ends.push(to)?;
        self.by_name.insert(from, ends)?;
        Ok(())
    }

    /// The names to which steps lead from a name, in no order.
    #[tactic(auto, unfolding(crate::specs::Reaching::ends_at))]
    pub(crate) fn at(&self, name: &UnitName) -> &[UnitName]
        ensures { result.now ≡ ends_at self.now name.now }
    {
        match self.by_name.get(name) {
            Some(ends) => ends.as_slice(),
            None => &[],
        }
    }

    /// The ends of the steps of these links. Fails only if memory runs out.
    pub(crate) fn of(alloc: Global, reverse: bool, links: &TreePart) -> Result<Ends, AllocError>
        ensures { IfOk result (λ ends. AreEnds ends (steps_of reverse (map.entries links.now))) }
    {
        let mut ends = Ends::none(alloc);
        for (path, entry) in links.iter() {
            if let Some(step) = Step::at(alloc, path, entry)? {
                ends.add(alloc, step.turn(reverse))?;
            }
        }
        Ok(ends)
    }
}
