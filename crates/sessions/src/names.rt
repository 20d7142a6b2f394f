//! Operators by their names.
ghost use Rattle.std.specs.Prelude.{◌≡◌, ◌<◌, ◌≤◌, IsTrue, Some, length, slice_get};
ghost use Rattle.std.specs.Str.{bytes_eq};
ghost use Rattle.shared_admin.specs.Sharing.{is_among};

use history::Operator;
use shared_admin::Operators;
use std::alloc::{AllocError, Global};

/// Whether an operator has this name.
pub(crate) fn has_text(operator: &Operator, text: &[u8]) -> bool
    ensures { result ≡ bytes_eq text.now operator.now }
{
    text == operator.text()
}

/// Whether an operator is one of these.
pub(crate) fn is_among(operators: &[Operator], operator: &Operator) -> bool
    ensures { result ≡ is_among operators.now operator.now }
{
    operators.iter().any(|one| has_text(one, operator.text()))
}

/// The index of an operator in this list.
pub(crate) fn place_of(operators: &[Operator], operator: &Operator) -> usize
    requires { IsTrue (is_among operators.now operator.now) }
    ensures within { result < length operators.now }
    ensures there { slice_get operators.now result ≡ Some operator.now }
{
    for place in 0..operators.len() {
        if has_text(&operators[place], operator.text()) {
            return place;
        }
    }
    unreachable!()
}

/// A copy of at most sixteen operators. Allocates no memory.
pub(crate) fn copied(alloc: Global, operators: &[Operator]) -> Operators
    requires { length operators.now ≤ 16 }
    ensures { result ≡ operators.now }
{
    let mut copies = Operators::none(alloc);
    for operator in operators {
        match copies.push(*operator) {
            Ok(()) => {}
            Err(AllocError) => unreachable!(),
        }
    }
    copies
}
