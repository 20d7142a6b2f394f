//! The operators of a script's calls.
ghost use Rattle.std.specs.Prelude.{◌≡◌, ◌<◌, ◌++◌, ◌∷◌, [], All, IsTrue, IfOk, IfErr, OnOk, length};
ghost use Rattle.std.specs.List.{IsDistinct};
ghost use Rattle.std.specs.Str.{bytes_eq};
ghost use Rattle.load_path.specs.Search.{each_once};
ghost use Rattle.shared_admin.specs.Sharing.{MayShare, is_among};
ghost use Rattle.session_script.specs.Served.{operators_of, AreOfTooMany};

use history::Operator;
use shared_admin::{MAX_SESSIONS, Operators};
use std::alloc::{AllocError, Global};
use unit_script::Call;

/// A script has calls of more than sixteen operators.
#[derive(Clone, Copy, Debug)]
pub(crate) struct TooMany;

fn is_among(operators: &[Operator], operator: &Operator) -> bool
    ensures { result ≡ is_among operators.now operator.now }
{
    operators.iter().any(|one| operator.text() == one.text())
}

/// Adds an operator, if there are fewer than sixteen. Allocates no memory.
fn add(operators: &mut Operators, operator: Operator)
    requires { length operators.old < 16 }
    ensures { operators.new ≡ operators.old ++ operator ∷ [] }
{
    match operators.push(operator) {
        Ok(()) => {}
        Err(AllocError) => unreachable!(),
    }
}

/// The operators of calls, each once, in the order of their first calls. Allocates no memory.
pub(crate) fn operators_of(alloc: Global, calls: &[Call]) -> Result<Operators, TooMany>
    ensures order { IfOk result (λ operators. operators ≡ each_once (operators_of calls.now)) }
    ensures all { IfOk result (λ operators. All (λ operator. IsTrue (is_among operators operator)) (operators_of calls.now)) }
    ensures share { IfOk result (λ operators. MayShare operators) }
    ensures few { OnOk result (¬ AreOfTooMany calls.now) }
    ensures many { IfErr result (λ _. AreOfTooMany calls.now) }
{
    let mut operators = Operators::none(alloc);
    for call in calls {
        if !is_among(operators.as_slice(), &call.operator) {
            if operators.as_slice().len() >= MAX_SESSIONS {
                return Err(TooMany);
            }
            add(&mut operators, call.operator);
        }
    }
    Ok(operators)
}
