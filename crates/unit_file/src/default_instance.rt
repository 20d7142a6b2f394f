ghost use Rattle.std.specs.Prelude.{◌≡◌, IfOk, Some};
ghost use Rattle.unit_file.specs.Identity.{identity_of};

use crate::install::InstallText;
use std::alloc::{AllocError, Global};
use unit_name::{InstanceError, Kind, UnitName};

/// The name that is used to expand the specifiers in the words of a unit's lists. For a template
/// whose `DefaultInstance=` isn't empty and makes a valid name, it is the name of that instance;
/// for any other unit, and for a template whose value doesn't make one, it is the unit's own name.
/// Specifiers in the value aren't expanded.
///
/// A value that doesn't make a valid name is no error: the only error is `AllocError`, if memory
/// runs out.
///
/// systemd.unit(5), "[Install] Section Options", `DefaultInstance=`.
pub fn identity(alloc: Global, unit: &UnitName, text: &InstallText) -> Result<UnitName, AllocError>
    ensures { IfOk result (λ name. name ≡ identity_of unit.now text.now.default_instance) }
{
    match &text.default_instance {
        Some(default) => identity_with(alloc, unit, default.bytes()),
        None => unit.copy(),
    }
}

/// The name that is used to expand the specifiers, if the unit has this default instance.
fn identity_with(alloc: Global, unit: &UnitName, default: &[u8]) -> Result<UnitName, AllocError>
    ensures { IfOk result (λ name. name ≡ identity_of unit.now (Some default.now)) }
{
    match unit.kind() {
        Kind::Plain | Kind::Instance => unit.copy(),
        Kind::Template if default.is_empty() => unit.copy(),
        Kind::Template => match unit.with_instance(alloc, default) {
            Ok(name) => Ok(name),
            Err(InstanceError::Bad(_)) => unit.copy(),
            Err(InstanceError::OutOfMemory) => Err(AllocError),
        },
    }
}
