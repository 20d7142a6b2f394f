//! Requests of several operators, in one list.
ghost use Rattle.std.specs.Prelude.{◌≡◌, ◌++◌, ◌∷◌, [], true, false, IfOk, OnOk, OnErr};
ghost use Rattle.sessions.specs.Fed.{AreOf};

use crate::names::is_among;
use footprint::Operation;
use history::{Operator, Request};
use std::alloc::{AllocError, Global};
use std::marker::Model;

/// A request of an operator.
#[derive(Debug, Drop)]
pub struct Ask<O> {
    pub operator: Operator,
    pub request: Request<O>,
}

impl<O: Operation> Ask<O> {
    /// An equal copy. Fails only if memory runs out.
    fn copy(&self) -> Result<Ask<O>, AllocError>
        ensures { IfOk result (λ copy. copy ≡ self.now) }
    {
        Ok(Ask {
            operator: self.operator,
            request: self.request.copy()?,
        })
    }
}

/// Requests of several operators, in the order in which they will be passed on. Contracts see their
/// list.
#[derive(Debug, Drop)]
pub struct Asks<O> {
    items: Vec<Ask<O>>,
}

impl<O> Model for Asks<O> {
    ghost use Rattle.std.specs.Prelude.{List};
    ghost use Rattle.std.specs.Coded.{codes};
    ghost use Rattle.sessions.specs.declared.asks.Ask.{Ask};

    ghost Value = { List (Ask O) };

    ghost coded = { Prim.hlevel codes };

    ghost view = { λ asks. asks.items.items };
}

impl<O: Operation> Asks<O> {
    /// No requests. Allocates no memory.
    pub fn none(alloc: Global) -> Asks<O>
        ensures { result ≡ [] }
    {
        Asks {
            items: Vec::new(alloc),
        }
    }

    /// Adds a request. If memory runs out, the list is unchanged.
    pub fn push(&mut self, ask: Ask<O>) -> Result<(), AllocError>
        ensures ok { OnOk result (self.new ≡ self.old ++ ask ∷ []) }
        ensures err { OnErr result (self.new ≡ self.old) }
    {
        Ok(self.items.push(ask)?)
    }

    /// The requests, in order.
    pub fn as_slice(&self) -> &[Ask<O>]
        ensures { result.now ≡ self.now }
    {
        &self.items
    }

    /// Whether each request is of one of these operators.
    pub fn are_of(&self, operators: &[Operator]) -> bool
        ensures yes { result ≡ true → AreOf operators.now self.now }
        ensures no { result ≡ false → ¬ AreOf operators.now self.now }
    {
        are_of(self.as_slice(), operators)
    }

    /// Equal copies. Fails only if memory runs out.
    pub(crate) fn copy(&self) -> Result<Asks<O>, AllocError>
        ensures { IfOk result (λ copy. copy ≡ self.now) }
    {
        let mut copy = Asks::none(*self.items.allocator());
        for ask in self.as_slice() {
            copy.push(ask.copy()?)?;
        }
        Ok(copy)
    }

    /// The requests, in order, by value.
    pub(crate) fn into_vec(self) -> Vec<Ask<O>>
        ensures { result.items ≡ self }
    {
        let Asks { items } = self;
        items
    }
}

fn are_of<O: Operation>(asks: &[Ask<O>], operators: &[Operator]) -> bool
    ensures yes { result ≡ true → AreOf operators.now asks.now }
    ensures no { result ≡ false → ¬ AreOf operators.now asks.now }
{
    for ask in asks {
        if !is_among(operators, &ask.operator) {
            return false;
        }
    }
    true
}
