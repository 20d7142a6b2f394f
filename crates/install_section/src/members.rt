//! Units in the order in which they are found.
ghost use Rattle.std.specs.Prelude.{◌≡◌, [], ◌==◌, length, slice_get, IfOk};
ghost use Rattle.std.specs.List.{list_any};
ghost use Rattle.std.specs.Option.{option_copied};
ghost use Rattle.std.specs.Str.{bytes_eq};
ghost use Rattle.install_section.specs.Closure.{joined};
ghost use Rattle.install_section.specs.Growing.{grown};

use crate::closed::ClosureFault;
use indexmap::IndexSet;
use std::alloc::{AllocError, Global};
use std::marker::Model;
use unit_name::UnitName;

/// The most units that may be enabled together.
pub const MAX_UNITS: usize = 1024;

/// Units in the order in which they were found, each once, at most 1,024 of them. Contracts see
/// this as the list of their names.
#[derive(Debug, Drop)]
pub struct Members {
    names: IndexSet<UnitName>,
}

impl Model for Members {
    ghost use Rattle.std.specs.Prelude.{List, ℕ};

    ghost Value = { List (List ℕ) };

    ghost view = { λ members. members.names.keys };
}

impl Members {
    /// No units. Takes no memory.
    pub(crate) fn none(alloc: Global) -> Members
        ensures { result ≡ [] }
    {
        Members {
            names: IndexSet::new(alloc),
        }
    }

    /// Adds this unit at the end, unless it is there already.
    #[tactic(auto, unfolding(crate::specs::Closure::joined))]
    pub(crate) fn join(&mut self, name: UnitName) -> Result<Result<(), ClosureFault>, AllocError>
        ensures { IfOk result (λ end. grown end self.new ≡ joined self.old name) }
    {
        if self.names.contains(&name) {
            return Ok(Ok(()));
        }
        if self.names.len() >= MAX_UNITS {
            return Ok(Err(ClosureFault::TooMany));
        }
        self.names.insert(name)?;
        Ok(Ok(()))
    }

    /// The names, in the order in which they were found.
    pub fn as_slice(&self) -> &[UnitName]
        ensures { result.now ≡ self.now }
    {
        self.names.as_slice()
    }

    /// The number of units.
    pub fn len(&self) -> usize
        ensures { result ≡ length self.now }
    {
        self.names.len()
    }

    /// Whether there are no units.
    pub fn is_empty(&self) -> bool
        ensures { result ≡ (length self.now == 0) }
    {
        self.len() == 0
    }

    /// Whether the unit is one of them.
    pub fn contains(&self, name: &UnitName) -> bool
        ensures { result ≡ list_any (bytes_eq name.now) self.now }
    {
        self.names.contains(name)
    }

    /// The unit at a position, counted from 0.
    pub fn get(&self, place: usize) -> Option<&UnitName>
        ensures { option_copied result ≡ slice_get self.now place }
    {
        self.names.get_index(place)
    }
}
