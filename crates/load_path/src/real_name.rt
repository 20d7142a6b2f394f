//! The name of a unit, from the name of its file.
ghost use Rattle.std.specs.Prelude.{◌≡◌, ◌≢◌, IfOk};
ghost use Rattle.std.specs.Option.{option_copied};
ghost use Rattle.unit_name.specs.Parts.{kind_of};
ghost use Rattle.unit_name.specs.Name.{instance_of, type_of};
ghost use Rattle.load_path.specs.RealNames.{is_same_type, is_same_instance, by_kinds, put_in, real_name};

use std::alloc::{AllocError, Global};
use unit_name::{InstanceError, Kind, NameError, UnitName};

/// The name that a unit has if `name` leads to a file with this name; `None` if the file isn't one
/// of such a unit.
#[tactic(auto, unfolding(crate::specs::RealNames::real_name))]
pub(crate) fn real_name(
    alloc: Global,
    name: &UnitName,
    file: &[u8],
) -> Result<Option<UnitName>, AllocError>
    ensures { IfOk result (λ real. real ≡ real_name name.now file.now) }
{
    match UnitName::parse(alloc, file) {
        Ok(file) => {
            if is_same_type(name, &file) {
                by_kinds(alloc, name, file)
            } else {
                Ok(None)
            }
        }
        Err(NameError::Bad(_)) => Ok(None),
        Err(NameError::OutOfMemory) => Err(AllocError),
    }
}

fn is_same_type(name: &UnitName, file: &UnitName) -> bool
    ensures { result ≡ is_same_type (type_of name.now) (type_of file.now) }
{
    name.unit_type().text() == file.unit_type().text()
}

fn is_same_instance(name: &UnitName, file: &UnitName) -> bool
    ensures { result ≡ is_same_instance (instance_of name.now) (instance_of file.now) }
{
    match (name.instance(), file.instance()) {
        (Some(one), Some(other)) => one == other,
        _ => false,
    }
}

/// Whether the file is the unit's depends on the kinds of the two names.
#[tactic(auto, unfolding(crate::specs::RealNames::by_kinds))]
fn by_kinds(alloc: Global, name: &UnitName, file: UnitName) -> Result<Option<UnitName>, AllocError>
    ensures { IfOk result (λ real. real ≡ by_kinds (kind_of (instance_of name.now)) (kind_of (instance_of file)) name.now file) }
{
    match (name.kind(), file.kind()) {
        (Kind::Plain, Kind::Plain) | (Kind::Template, Kind::Template) => Ok(Some(file)),
        (Kind::Instance, Kind::Template) => put_in(alloc, &file, name.instance()),
        (Kind::Instance, Kind::Instance) if is_same_instance(name, &file) => Ok(Some(file)),
        _ => Ok(None),
    }
}

/// The name of an instance of a template, which is the template with the instance put in:
/// systemd.unit(5), "Description". `None` if there is no instance, if it has a byte that no name
/// has, or if the name would be longer than 255 bytes; an empty instance gives the template itself.
/// Fails only if memory runs out.
pub fn put_in(
    alloc: Global,
    template: &UnitName,
    instance: Option<&[u8]>,
) -> Result<Option<UnitName>, AllocError>
    requires { kind_of (instance_of template.now) ≢ Kind.Plain }
    ensures { IfOk result (λ real. real ≡ put_in template.now (option_copied instance.entry)) }
{
    let Some(instance) = instance else {
        return Ok(None);
    };
    match template.with_instance(alloc, instance) {
        Ok(real) => Ok(Some(real)),
        Err(InstanceError::Bad(_)) => Ok(None),
        Err(InstanceError::OutOfMemory) => Err(AllocError),
    }
}
