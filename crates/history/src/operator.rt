//! The operators, who make calls.
ghost use Rattle.std.specs.Prelude.{◌≡◌, ◌≤◌, true, false, length, MatchResult};
ghost use Rattle.std.specs.List.{list_all};
ghost use Rattle.history.specs.Operators.{is_operator, is_operator_byte, padded};

use std::marker::Model;
use thiserror::Error;

const MAX_OPERATOR: usize = 32;

/// The name of an operator: 1 to 32 of a-z, 0-9 and -. Contracts see its text.
#[derive(Clone, Copy, Debug, Drop)]
pub struct Operator {
    bytes: [u8; MAX_OPERATOR],
    len: usize,
}

impl Model for Operator {
    ghost use Rattle.std.specs.Prelude.{◌≡◌, ◌≤◌, ℕ, List, length, take, true};
    ghost use Rattle.std.proofs.Common.{arith, sym, length-take-le};
    ghost use Rattle.history.specs.Operators.{is_operator, padded};

    ghost Value = { List ℕ };

    ghost view = { λ operator. take operator.len operator.bytes };

    ghost invariant = { λ operator. (operator.len ≤ 32) × (length operator.bytes ≡ 32) × (operator.bytes ≡ padded (take operator.len operator.bytes)) × (is_operator (take operator.len operator.bytes) ≡ true) };

    ghost inverse = { λ text. record { bytes = padded text; len = length text } };

    ghost inverse_ok = { λ operator h i. record {
      bytes = sym h.2 i;
      len = length-take-le operator.len operator.bytes (omega (arith, h.0, h.1)) i;
    } };
}

/// The text isn't an operator's name.
#[derive(Clone, Copy, Debug, PartialEq, Eq, Error)]
#[error("bad operator")]
pub struct BadOperator;

#[tactic(auto, unfolding(crate::specs::Operators::is_operator_byte))]
fn is_operator_byte(b: u8) -> bool
    ensures { result ≡ is_operator_byte b }
{
    matches!(b, b'a'..=b'z' | b'0'..=b'9' | b'-')
}

fn has_operator_bytes(text: &[u8]) -> bool
    ensures { result ≡ list_all is_operator_byte text.now }
{
    text.iter().all(|b| is_operator_byte(*b))
}

#[tactic(auto, unfolding(crate::specs::Operators::is_operator))]
fn is_operator(text: &[u8]) -> bool
    ensures test { result ≡ is_operator text.now }
    ensures within { result ≡ true → length text.now ≤ 32 }
{
    !text.is_empty() && text.len() <= MAX_OPERATOR && has_operator_bytes(text)
}

fn padded(text: &[u8]) -> [u8; MAX_OPERATOR]
    requires { length text.now ≤ 32 }
    ensures { result ≡ padded text.now }
{
    let mut bytes = [0; MAX_OPERATOR];
    bytes[..text.len()].copy_from_slice(text);
    bytes
}

/// Padding for a list's unused room; it is never read.
impl Default for Operator {
    ghost use Rattle.std.specs.Prelude.{◌≡◌, codes};

    ghost is_default = { λ operator. operator ≡ codes "a" };

    #[tactic(auto, unfolding(crate::specs::Operators::is_operator, crate::specs::Operators::is_operator_byte))]
    fn default() -> Operator {
        Operator {
            bytes: padded(b"a"),
            len: 1,
        }
    }
}

impl Operator {
    /// Reads a name.
    pub fn parse(text: &[u8]) -> Result<Operator, BadOperator>
        ensures { MatchResult result (λ operator. (operator ≡ text.now) × (is_operator text.now ≡ true)) (λ _. is_operator text.now ≡ false) }
    {
        if !is_operator(text) {
            return Err(BadOperator);
        }
        Ok(Operator {
            bytes: padded(text),
            len: text.len(),
        })
    }

    pub fn text(&self) -> &[u8]
        ensures { result.now ≡ self.now }
    {
        &self.bytes[..self.len]
    }
}
