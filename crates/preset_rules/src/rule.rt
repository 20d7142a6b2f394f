//! Rules: what a line of a preset file says.
ghost use Rattle.std.specs.Prelude.{◌≡◌, ◌==◌, ◌++◌, ◌∷◌, [], length, true, OnOk, OnErr, IfOk};
ghost use Rattle.std.specs.List.{list_any};
ghost use Rattle.std.specs.Str.{bytes_eq};
ghost use Rattle.std.specs.Option.{option_map, option_copied};
ghost use Rattle.unit_name.specs.Name.{instance_of};
ghost use Rattle.unit_name.specs.Parts.{kind_of};

use crate::pattern::pattern_matches;
use std::alloc::{AllocError, Global};
use std::marker::Model;
use unit_file::Word;
use unit_name::UnitName;

/// The names of instances, as they are written and in that order. Contracts see the list.
#[derive(Debug, Drop)]
pub struct Instances {
    names: Vec<Word>,
}

impl Model for Instances {
    ghost use Rattle.std.specs.Prelude.{List, ℕ};

    ghost Value = { List (List ℕ) };

    ghost view = { λ list. list.names.items };
}

impl Instances {
    pub(crate) fn none(alloc: Global) -> Instances
        ensures { result ≡ [] }
    {
        Instances {
            names: Vec::new(alloc),
        }
    }

    pub(crate) fn push(&mut self, name: Word) -> Result<(), AllocError>
        ensures { OnOk result (self.new ≡ self.old ++ name ∷ []) }
    {
        Ok(self.names.push(name)?)
    }

    /// The names, in the order in which they are written.
    pub fn as_slice(&self) -> &[Word]
        ensures { result.now ≡ self.now }
    {
        &self.names
    }

    /// Whether there is none.
    pub fn is_empty(&self) -> bool
        ensures { result ≡ (length self.now == 0) }
    {
        self.names.is_empty()
    }

    /// An equal list. Fails only if memory runs out.
    pub fn copy(&self) -> Result<Instances, AllocError>
        ensures { IfOk result (λ copy. copy ≡ self.now) }
    {
        Ok(Instances {
            names: self.names.clone()?,
        })
    }

    pub(crate) fn has(&self, name: &[u8]) -> bool
        ensures { result ≡ list_any (bytes_eq name.now) self.now }
    {
        self.names.iter().any(|other| name == other.bytes())
    }
}

/// What a line says.
#[derive(Debug, Drop)]
pub enum Rule {
    /// The units that the pattern matches are enabled. With instances, the pattern names a
    /// template, which is enabled with these.
    Enable { pattern: Word, instances: Instances },
    /// The units that the pattern matches are disabled.
    Disable { pattern: Word },
    /// The units that the pattern matches are left as they are.
    Ignore { pattern: Word },
}

/// What a preset does with a unit: systemd.preset(5), "Preset File Format".
#[derive(Debug, Drop)]
pub enum Verdict {
    /// It is enabled; if there are instances, each of them is enabled instead of the template. They
    /// are as they are written, and may be such that no unit can have them.
    Enable(Instances),
    /// It is disabled.
    Disable,
    /// It is left as it is.
    Ignore,
}
