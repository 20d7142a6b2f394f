//! The requests of several operators, each operator in a session of its own.
ghost use Rattle.std.specs.Prelude.{◌≡◌, ◌++◌, ◌∷◌, [], IfNone, IfSome, OnOk, OnErr};

use crate::requests::Requests;
use history::Operator;
use std::alloc::{AllocError, Global};
use std::marker::Model;

/// The requests of one operator, in order.
#[derive(Debug, Drop)]
pub struct Work<O> {
    pub operator: Operator,
    pub requests: Requests<O>,
}

/// The work of several operators. Contracts see its list.
#[derive(Debug, Drop)]
pub struct Works<O> {
    items: Vec<Work<O>>,
}

impl<O> Model for Works<O> {
    ghost use Rattle.std.specs.Prelude.{List};
    ghost use Rattle.std.specs.Coded.{codes};
    ghost use Rattle.sessions.specs.declared.works.Work.{Work};

    ghost Value = { List (Work O) };

    ghost coded = { Prim.hlevel codes };

    ghost view = { λ works. works.items.items };
}

impl<O: Drop> Works<O> {
    /// No work. Allocates no memory.
    pub fn none(alloc: Global) -> Works<O>
        ensures { result ≡ [] }
    {
        Works {
            items: Vec::new(alloc),
        }
    }

    /// Adds an operator's work. If memory runs out, the list is unchanged.
    pub fn push(&mut self, work: Work<O>) -> Result<(), AllocError>
        ensures ok { OnOk result (self.new ≡ self.old ++ work ∷ []) }
        ensures err { OnErr result (self.new ≡ self.old) }
    {
        Ok(self.items.push(work)?)
    }

    /// The work of each operator, in order.
    pub fn as_slice(&self) -> &[Work<O>]
        ensures { result.now ≡ self.now }
    {
        &self.items
    }

    /// Removes and returns the last operator's work.
    pub(crate) fn pop(&mut self) -> Option<Work<O>>
        ensures none { IfNone result (self.old ≡ []) }
        ensures some { IfSome result (λ work. self.old ≡ self.new ++ work ∷ []) }
    {
        self.items.pop()
    }
}
