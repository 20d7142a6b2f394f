//! Lists of the names of units.
ghost use Rattle.std.specs.Prelude.{◌≡◌, ◌↔◌, ◌++◌, ◌∷◌, [], IfOk, IsTrue, OnOk, OnErr};

use std::alloc::{AllocError, Global};
use std::marker::Model;
use unit_name::UnitName;

/// The names of units that are the arguments of a command, in order. Contracts see the list of
/// them.
#[derive(Debug, Drop)]
pub struct Units {
    names: Vec<UnitName>,
}

impl Model for Units {
    ghost use Rattle.std.specs.Prelude.{List, ℕ};

    ghost Value = { List (List ℕ) };

    ghost view = { λ units. units.names.items };
}

impl Units {
    /// No names. Allocates no memory.
    pub fn none(alloc: Global) -> Units
        ensures { result ≡ [] }
    {
        Units {
            names: Vec::new(alloc),
        }
    }

    /// Adds a name. If memory runs out, the list stays as it was.
    pub fn push(&mut self, name: UnitName) -> Result<(), AllocError>
        ensures ok { OnOk result (self.new ≡ self.old ++ name ∷ []) }
        ensures err { OnErr result (self.new ≡ self.old) }
    {
        Ok(self.names.push(name)?)
    }

    /// The names, in order.
    pub fn as_slice(&self) -> &[UnitName]
        ensures { result.now ≡ self.now }
    {
        &self.names
    }

    /// Whether these are the same names, in the same order.
    pub fn same(&self, other: &Units) -> bool
        ensures { IsTrue result ↔ (self.now ≡ other.now) }
    {
        self.as_slice() == other.as_slice()
    }

    /// A copy of the names. Fails only if memory runs out.
    pub fn copy(&self) -> Result<Units, AllocError>
        ensures { IfOk result (λ units. units ≡ self.now) }
    {
        let mut copy = Units::none(*self.names.allocator());
        for name in self.as_slice() {
            copy.push(name.copy()?)?;
        }
        Ok(copy)
    }
}
