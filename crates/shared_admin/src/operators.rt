//! The operators who share a history.
ghost use Rattle.std.specs.Prelude.{◌≡◌, ◌<◌, ◌++◌, ◌∷◌, [], true, false, IsOk, OnOk, OnErr, length};
ghost use Rattle.std.specs.List.{IsDistinct};
ghost use Rattle.std.specs.Str.{bytes_eq};
ghost use Rattle.shared_admin.specs.Sharing.{is_among};

use history::Operator;
use smallvec::SmallVec;
use std::alloc::{AllocError, Global};
use std::marker::Model;

/// The most operators that may share a history.
pub const MAX_SESSIONS: usize = 16;

/// Operators, in an order. Contracts see the list of their names. Up to sixteen of them allocate no
/// memory.
#[derive(Debug, Drop)]
pub struct Operators {
    items: SmallVec<Operator, MAX_SESSIONS>,
}

impl Model for Operators {
    ghost use Rattle.std.specs.Prelude.{◌≤◌, List, ℕ};

    ghost Value = { List (List ℕ) };

    ghost view = { λ operators. operators.items.items };

    ghost invariant = { λ operators. 16 ≤ operators.items.capacity };
}

impl Operators {
    /// No operators.
    pub fn none(alloc: Global) -> Operators
        ensures { result ≡ [] }
    {
        Operators {
            items: SmallVec::new(alloc),
        }
    }

    /// Adds an operator. Only the seventeenth and later ones need memory; if it runs out, the list
    /// is unchanged.
    pub fn push(&mut self, operator: Operator) -> Result<(), AllocError>
        ensures ok { OnOk result (self.new ≡ self.old ++ operator ∷ []) }
        ensures room { length self.old < 16 → IsOk result }
        ensures err { OnErr result (self.new ≡ self.old) }
    {
        Ok(self.items.push(operator)?)
    }

    /// The operators, in order.
    pub fn as_slice(&self) -> &[Operator]
        ensures { result.now ≡ self.now }
    {
        self.items.as_slice()
    }
}

/// Whether an operator has this name.
pub(crate) fn has_text(operator: &Operator, text: &[u8]) -> bool
    ensures { result ≡ bytes_eq text.now operator.now }
{
    text == operator.text()
}

/// Whether an operator is one of these.
pub(crate) fn is_among(operators: &[Operator], operator: &Operator) -> bool
    ensures { result ≡ is_among operators.now operator.now }
{
    operators.iter().any(|one| has_text(one, operator.text()))
}

/// Whether no operator is in the list twice.
pub(crate) fn are_distinct(operators: &[Operator]) -> bool
    ensures yes { result ≡ true → IsDistinct bytes_eq operators.now }
    ensures no { result ≡ false → ¬ IsDistinct bytes_eq operators.now }
{
    for place in 0..operators.len() {
        if is_among(&operators[place + 1..], &operators[place]) {
            return false;
        }
    }
    true
}
