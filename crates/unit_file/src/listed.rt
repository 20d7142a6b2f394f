ghost use Rattle.std.specs.Prelude.{◌≡◌};
ghost use Rattle.std.specs.Option.{option_copied};
ghost use Rattle.unit_file.specs.Listed.{is_template_name, listed_name};

use unit_name::{Kind, UnitName};

/// Whether a name is that of a template: systemd.unit(5), "Description".
pub fn is_template(name: &UnitName) -> bool
    ensures { result ≡ is_template_name name.now }
{
    match name.kind() {
        Kind::Template => true,
        Kind::Plain | Kind::Instance => false,
    }
}

/// The name of the link to a unit in the `.wants`, `.requires` or `.upholds` directory of another
/// unit, given the unit's identity (`identity`): its own name; but if it is a template and the
/// other unit isn't, the name of its default instance. `None` if it has no default instance.
///
/// systemd.unit(5), "[Install] Section Options", `WantedBy=` and `DefaultInstance=`.
#[tactic(auto, unfolding(crate::specs::Listed::listed_name))]
pub fn listed_name<'a>(
    by: &UnitName,
    unit: &'a UnitName,
    identity: &'a UnitName,
) -> Option<&'a UnitName>
    ensures { option_copied result ≡ listed_name by.now unit.now identity.now }
{
    if !is_template(unit) || is_template(by) {
        return Some(unit);
    }
    match identity.kind() {
        Kind::Instance => Some(identity),
        Kind::Plain | Kind::Template => None,
    }
}
