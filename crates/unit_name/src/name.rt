ghost use Rattle.std.specs.Prelude.{◌≡◌, ◌≢◌, ◌↔◌, IfOk, IsTrue, Some, true};
ghost use Rattle.std.specs.Option.{option_copied};
ghost use Rattle.unit_name.specs.Parts.{kind_of, IsUnitName};
ghost use Rattle.unit_name.specs.Name.{instance_of, type_of, template_of, is_unit_name, Parses, TakesInstance};

use crate::fault::{InstanceError, NameError};
use crate::kind::{Kind, UnitType};
use crate::part::{fault_of, instance_fault_of, instance_in, text_with_instance, type_in};
use std::alloc::{AllocError, Global};
use std::marker::Model;

/// The name of a unit, such as `ssh.service`, `getty@.service` or `getty@tty1.service`. Contracts
/// see its text.
///
/// systemd.unit(5), "Description".
#[derive(Debug, Drop)]
pub struct UnitName {
    text: Vec<u8>,
}

impl Model for UnitName {
    ghost use Rattle.std.specs.Prelude.{List, ℕ};
    ghost use Rattle.unit_name.specs.Parts.{IsUnitName};

    ghost Value = { List ℕ };

    ghost view = { λ name. name.text.items };

    ghost invariant = { λ name. IsUnitName name.text.items };
}

impl UnitName {
    /// Parses a name.
    pub fn parse(alloc: Global, text: &[u8]) -> Result<UnitName, NameError>
        ensures { Parses text.now result }
    {
        match fault_of(text) {
            Some(fault) => Err(NameError::Bad(fault)),
            None => Ok(UnitName {
                text: Vec::from_slice(alloc, text)?,
            }),
        }
    }

    /// The whole name, at most 255 bytes of ASCII.
    pub fn text(&self) -> &[u8]
        ensures text { result.now ≡ self.now }
        ensures name { IsUnitName self.now }
        ensures test { is_unit_name self.now ≡ true }
    {
        &self.text
    }

    /// An equal copy.
    pub fn copy(&self) -> Result<UnitName, AllocError>
        ensures { IfOk result (λ name. name ≡ self.now) }
    {
        Ok(UnitName {
            text: self.text.clone()?,
        })
    }

    /// Whether it is a template or an instance of one.
    pub fn kind(&self) -> Kind
        ensures { result ≡ kind_of (instance_of self.now) }
    {
        kind_in(self.text())
    }

    /// The type, given by the text after the last dot.
    pub fn unit_type(&self) -> UnitType
        ensures { type_of self.now ≡ Some result }
    {
        type_in(self.text()).unwrap()
    }

    /// The text between the first `@` and the last dot: empty in a template. A plain name has none.
    pub fn instance(&self) -> Option<&[u8]>
        ensures { option_copied result ≡ instance_of self.now }
    {
        instance_in(self.text())
    }

    /// The template of an instance, or of a template.
    pub fn template(&self, alloc: Global) -> Result<UnitName, AllocError>
        requires { kind_of (instance_of self.now) ≢ Kind.Plain }
        ensures { IfOk result (λ name. name ≡ template_of self.now) }
    {
        Ok(UnitName {
            text: text_with_instance(alloc, self.text(), &[])?,
        })
    }

    /// The name with this instance instead of its own. An empty one gives the template.
    pub fn with_instance(&self, alloc: Global, instance: &[u8]) -> Result<UnitName, InstanceError>
        requires { kind_of (instance_of self.now) ≢ Kind.Plain }
        ensures { TakesInstance self.now instance.now result }
    {
        match instance_fault_of(self.text(), instance) {
            Some(fault) => Err(InstanceError::Bad(fault)),
            None => Ok(UnitName {
                text: text_with_instance(alloc, self.text(), instance)?,
            }),
        }
    }
}

/// The kind of the unit name that has this text. For a text that isn't a unit name, whether it
/// looks like an instance or a template; takes no memory.
pub fn kind_in(text: &[u8]) -> Kind
    ensures { result ≡ kind_of (instance_of text.now) }
{
    match instance_in(text) {
        None => Kind::Plain,
        Some([]) => Kind::Template,
        Some(_) => Kind::Instance,
    }
}

/// Whether `UnitName::parse` accepts the text, unless memory runs out.
pub fn is_unit_name(text: &[u8]) -> bool
    ensures name { IsTrue result ↔ IsUnitName text.now }
    ensures test { result ≡ is_unit_name text.now }
{
    match fault_of(text) {
        Some(_) => false,
        None => true,
    }
}
