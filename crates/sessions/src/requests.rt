//! Requests of one operator.
ghost use Rattle.std.specs.Prelude.{◌≡◌, ◌++◌, ◌∷◌, [], OnOk, OnErr};

use history::Request;
use std::alloc::{AllocError, Global};
use std::marker::Model;

/// Requests, in order. Contracts see their list.
#[derive(Debug, Drop)]
pub struct Requests<O> {
    items: Vec<Request<O>>,
}

impl<O> Model for Requests<O> {
    ghost use Rattle.std.specs.Prelude.{List};
    ghost use Rattle.std.specs.Coded.{codes};
    ghost use Rattle.history.specs.declared.row.Request.{Request};

    ghost Value = { List (Request O) };

    ghost coded = { Prim.hlevel codes };

    ghost view = { λ requests. requests.items.items };
}

impl<O: Drop> Requests<O> {
    /// No requests. Allocates no memory.
    pub fn none(alloc: Global) -> Requests<O>
        ensures { result ≡ [] }
    {
        Requests {
            items: Vec::new(alloc),
        }
    }

    /// Adds a request. If memory runs out, the list is unchanged.
    pub fn push(&mut self, request: Request<O>) -> Result<(), AllocError>
        ensures ok { OnOk result (self.new ≡ self.old ++ request ∷ []) }
        ensures err { OnErr result (self.new ≡ self.old) }
    {
        Ok(self.items.push(request)?)
    }

    /// The requests, in order.
    pub fn as_slice(&self) -> &[Request<O>]
        ensures { result.now ≡ self.now }
    {
        &self.items
    }

    /// The requests, in order, by value.
    pub(crate) fn into_vec(self) -> Vec<Request<O>>
        ensures { result.items ≡ self }
    {
        let Requests { items } = self;
        items
    }
}
