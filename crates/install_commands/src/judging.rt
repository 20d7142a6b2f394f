//! What the preset files say about units.
ghost use Rattle.std.specs.Prelude.{◌≡◌, ◌≢◌, Some, IfOk};
ghost use Rattle.std.specs.Option.{option_copied};
ghost use Rattle.unit_name.specs.Name.{instance_of};
ghost use Rattle.unit_name.specs.Parts.{kind_of};
ghost use Rattle.unit_name.specs.declared.kind.Kind.TheVariants as kinds;
ghost use Rattle.install_commands.specs.Preset as presets;
ghost use Rattle.install_commands.specs.Preset.{none_judged, judged_by};

use footprint::{Notices, Units};
use load_path::put_in;
use preset_rules::{Instances, Rules, Verdict};
use std::alloc::{AllocError, Global};
use unit_file::{Notice, NoticeKey, Reason, Word};
use unit_name::{Kind, UnitName};

/// Which units a preset disables and which it enables, with notices about instances that no unit
/// can have.
#[derive(Debug, Drop)]
pub(crate) struct Judged {
    pub disabled: Units,
    pub enabled: Units,
    pub notices: Notices,
}

/// The notice about an instance that is listed for a template but doesn't give a valid unit name.
fn bad_instance(template: &UnitName, instance: &Word) -> Result<Notice, AllocError>
    ensures { IfOk result (λ notice. notice ≡ presets.bad_instance template.now instance.now) }
{
    Ok(Notice {
        unit: template.copy()?,
        key: NoticeKey::Preset,
        word: instance.copy()?,
        reason: Reason::BadName,
    })
}

impl Judged {
    /// No units.
    fn none(alloc: Global) -> Judged
        ensures { result ≡ none_judged }
    {
        Judged {
            disabled: Units::none(alloc),
            enabled: Units::none(alloc),
            notices: Notices::none(alloc),
        }
    }

    /// Adds a unit that will be disabled.
    fn with_disabled(self, unit: &UnitName) -> Result<Judged, AllocError>
        ensures { IfOk result (λ judged. judged ≡ presets.with_disabled unit.now self) }
    {
        let mut judged = self;
        judged.disabled.push(unit.copy()?)?;
        Ok(judged)
    }

    /// Adds a unit that will be enabled.
    fn with_one(self, unit: UnitName) -> Result<Judged, AllocError>
        ensures { IfOk result (λ judged. judged ≡ presets.with_one unit self) }
    {
        let mut judged = self;
        judged.enabled.push(unit)?;
        Ok(judged)
    }

    /// Adds the template with a listed instance to the units that will be enabled, if that is a
    /// valid name.
    fn with_listed(
        self,
        template: &UnitName,
        instance: &Word,
        unit: Option<UnitName>,
    ) -> Result<Judged, AllocError>
        ensures { IfOk result (λ judged. judged ≡ presets.with_listed template.now instance.now self unit) }
    {
        let mut judged = self;
        match unit {
            Some(unit) => judged.with_one(unit),
            None => {
                judged.notices.add(bad_instance(template, instance)?)?;
                Ok(judged)
            }
        }
    }

    /// Adds the template with each of the listed instances to the units that will be enabled.
    fn with_all_listed(
        self,
        alloc: Global,
        template: &UnitName,
        instances: &[Word],
    ) -> Result<Judged, AllocError>
        requires { kind_of (instance_of template.now) ≢ kinds.Plain }
        ensures { IfOk result (λ judged. judged ≡ presets.with_all_listed template.now self instances.now) }
    {
        let mut judged = self;
        for instance in instances {
            let unit = put_in(alloc, template, Some(instance.bytes()))?;
            judged = judged.with_listed(template, instance, unit)?;
        }
        Ok(judged)
    }

    /// Adds a unit that is enabled; if instances are listed for a template, each of them is enabled
    /// instead of it.
    fn with_enabled(
        self,
        alloc: Global,
        unit: &UnitName,
        instances: &Instances,
    ) -> Result<Judged, AllocError>
        ensures { IfOk result (λ judged. judged ≡ presets.with_enabled unit.now self instances.now) }
    {
        if instances.is_empty() {
            return self.with_one(unit.copy()?);
        }
        match unit.kind() {
            Kind::Template => self.with_all_listed(alloc, unit, instances.as_slice()),
            Kind::Plain | Kind::Instance => self.with_one(unit.copy()?),
        }
    }

    /// Adds a unit that is enabled, disabled or left as it is, depending on what the rules say
    /// about it.
    fn with_unit(
        self,
        alloc: Global,
        unit: &UnitName,
        verdict: &Verdict,
    ) -> Result<Judged, AllocError>
        ensures { IfOk result (λ judged. judged ≡ presets.with_unit unit.now self verdict.now) }
    {
        match verdict {
            Verdict::Enable(instances) => self.with_enabled(alloc, unit, instances),
            Verdict::Disable => self.with_disabled(unit),
            Verdict::Ignore => Ok(self),
        }
    }

    /// What the rules say about each of the units, in order.
    pub fn by(alloc: Global, rules: &Rules, units: &[UnitName]) -> Result<Judged, AllocError>
        ensures { IfOk result (λ judged. judged ≡ judged_by rules.now units.now none_judged) }
    {
        let mut judged = Judged::none(alloc);
        for unit in units {
            let verdict = rules.verdict(alloc, unit)?;
            judged = judged.with_unit(alloc, unit, &verdict)?;
        }
        Ok(judged)
    }
}
