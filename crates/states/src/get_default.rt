//! get-default.
ghost use Rattle.std.specs.Prelude.{◌≡◌, IfOk};
ghost use Rattle.states.specs.GetDefault.{default_target};

use footprint::{Answer, Operation, Outcome};
use link_tree::Tree;
use std::alloc::{AllocError, Global};
use transaction::{Stop, Transaction};
use unit_name::{NameError, UnitName};

/// systemctl(1), `get-default`: the own name of the unit as which `default.target` is found
/// (`Answer::Name`). Refused with `NotFound`, `Masked` or `Dangling`. It is a question, and changes
/// nothing.
#[derive(Debug, Drop)]
pub struct GetDefault {}

/// `default.target`.
fn default_target(alloc: Global) -> Result<UnitName, AllocError>
    ensures { IfOk result (λ name. name ≡ default_target) }
{
    match UnitName::parse(alloc, b"default.target") {
        Ok(name) => Ok(name),
        Err(NameError::Bad(_)) => unreachable!(),
        Err(NameError::OutOfMemory) => Err(AllocError),
    }
}

impl Operation for GetDefault {
    ghost use Rattle.std.specs.Prelude.{true};
    ghost use Rattle.footprint.proofs.Asking.{laws_of_questions};
    ghost use Rattle.states.specs.GetDefault.{get_default_answer, get_default_meaning};

    ghost meaning = { get_default_meaning };

    ghost asks = { λ c. true };

    fn run(&self, alloc: Global, tree: &Tree) -> Result<Outcome, AllocError> {
        let mut txn = Transaction::new(alloc, tree);
        match txn.unit(alloc, &default_target(alloc)?) {
            Ok((real, _file)) => txn.answer(alloc, Answer::Name(real)),
            Err(Stop::Refused(refusal)) => txn.answer(alloc, Answer::Refused(refusal)),
            Err(Stop::OutOfMemory) => Err(AllocError),
        }
    }

    fn asks_only(&self) -> bool {
        true
    }

    fn copy(&self) -> Result<GetDefault, AllocError> {
        Ok(GetDefault {})
    }

    fn same(&self, _other: &GetDefault) -> bool {
        true
    }

    ghost laws = { laws_of_questions get_default_answer };
}
