//! list-dependencies.
use crate::answering::answer_by;
use crate::reaching::dependencies;
use footprint::{Answer, Key, Operation, Outcome};
use link_tree::Tree;
use std::alloc::{AllocError, Global};
use unit_name::UnitName;

/// systemctl(1), `list-dependencies`: the names of all units on which a unit depends by one or more
/// links in a row (`Answer::Names`), without its own name, in byte order; in reverse, of all that
/// depend on it. It is a question, changes nothing and refuses nothing.
///
/// A unit depends on another if a link that doesn't lead to `/dev/null` exists at
/// `DIR/UNIT.wants/OTHER`, `DIR/UNIT.requires/OTHER` or `DIR/UNIT.upholds/OTHER`, in any of the
/// four directories, whether the two are found or not. An instance also has each link of its
/// template; if such a link is to another template, it leads the instance to that template's
/// instance with the same instance name. A name of over 255 bytes is not valid.
#[derive(Debug, Drop)]
pub struct Dependencies {
    pub unit: UnitName,
    pub reverse: bool,
}

impl Operation for Dependencies {
    ghost use Rattle.std.specs.Prelude.{true};
    ghost use Rattle.footprint.proofs.Asking.{laws_of_questions};
    ghost use Rattle.states.specs.Dependencies.{dependencies_answer, dependencies_meaning};

    ghost meaning = { dependencies_meaning };

    ghost asks = { λ c. true };

    fn run(&self, alloc: Global, tree: &Tree) -> Result<Outcome, AllocError> {
        let links = Key::Links.entries(alloc, tree)?;
        let names = dependencies(alloc, self.reverse, &self.unit, &links)?;
        answer_by(alloc, Key::Links, links, Answer::Names(names))
    }

    fn asks_only(&self) -> bool {
        true
    }

    fn copy(&self) -> Result<Dependencies, AllocError> {
        Ok(Dependencies {
            unit: self.unit.copy()?,
            reverse: self.reverse,
        })
    }

    fn same(&self, other: &Dependencies) -> bool {
        self.reverse == other.reverse && self.unit == other.unit
    }

    ghost laws = { laws_of_questions dependencies_answer };
}
