//! What rules say about a unit: systemd.preset(5), "Preset File Format".
ghost use Rattle.std.specs.Prelude.{◌≡◌, false, IfOk};
ghost use Rattle.std.specs.List.{find, list_any};
ghost use Rattle.std.specs.Option.{option_copied, option_map_or};
ghost use Rattle.std.specs.Str.{bytes_eq};
ghost use Rattle.unit_name.specs.Name.{instance_of};
ghost use Rattle.unit_name.specs.Parts.{kind_of};
ghost use Rattle.preset_rules.specs.Verdicts.{own_template, is_listed, applies, given, verdict};

use crate::pattern::pattern_matches;
use crate::rule::{Instances, Rule, Verdict};
use std::alloc::{AllocError, Global};
use unit_name::{Kind, UnitName};

/// What rules say about a unit: the first one that applies decides, and if none does, the unit is
/// enabled.
#[tactic(auto, unfolding(crate::specs::Verdicts::verdict))]
pub(crate) fn verdict(alloc: Global, rules: &[Rule], name: &UnitName) -> Result<Verdict, AllocError>
    ensures { IfOk result (λ said. said ≡ verdict rules.now name.now) }
{
    let template = own_template(alloc, name)?;
    match first_that_applies(rules, name, &template) {
        Some(rule) => rule.given(alloc, name),
        None => Ok(Verdict::Enable(Instances::none(alloc))),
    }
}

fn first_that_applies<'a>(
    rules: &'a [Rule],
    name: &UnitName,
    template: &Option<UnitName>,
) -> Option<&'a Rule>
    requires { template.now ≡ own_template (kind_of (instance_of name.now)) name.now }
    ensures { option_copied result ≡ find (applies name.now) rules.now }
{
    rules.iter().find(|rule| rule.applies(name, template))
}

/// The template of an instance.
fn own_template(alloc: Global, name: &UnitName) -> Result<Option<UnitName>, AllocError>
    ensures { IfOk result (λ template. template ≡ own_template (kind_of (instance_of name.now)) name.now) }
{
    match name.kind() {
        Kind::Instance => Ok(Some(name.template(alloc)?)),
        Kind::Plain | Kind::Template => Ok(None),
    }
}

impl Rule {
    /// Whether the rule applies to a unit, given also its template, if it has one.
    #[tactic(auto, unfolding(crate::specs::Verdicts::applies))]
    fn applies(&self, name: &UnitName, template: &Option<UnitName>) -> bool
        requires { template.now ≡ own_template (kind_of (instance_of name.now)) name.now }
        ensures { result ≡ applies name.now self.now }
    {
        match self {
            Rule::Disable { pattern } => pattern_matches(pattern.bytes(), name.text()),
            Rule::Ignore { pattern } => pattern_matches(pattern.bytes(), name.text()),
            Rule::Enable { pattern, instances } => {
                if instances.is_empty() {
                    pattern_matches(pattern.bytes(), name.text())
                } else {
                    pattern.bytes() == name.text()
                        || is_listed(name, pattern.bytes(), instances, template)
                }
            }
        }
    }

    /// What the rule says about a unit to which it applies.
    #[tactic(auto, unfolding(crate::specs::Verdicts::given))]
    fn given(&self, alloc: Global, name: &UnitName) -> Result<Verdict, AllocError>
        ensures { IfOk result (λ said. said ≡ given name.now self.now) }
    {
        match self {
            Rule::Disable { .. } => Ok(Verdict::Disable),
            Rule::Ignore { .. } => Ok(Verdict::Ignore),
            Rule::Enable { pattern, instances } => {
                if pattern.bytes() == name.text() {
                    Ok(Verdict::Enable(instances.copy()?))
                } else {
                    Ok(Verdict::Enable(Instances::none(alloc)))
                }
            }
        }
    }
}

/// Whether a unit is among the instances of a template that the pattern names.
fn is_listed(
    name: &UnitName,
    pattern: &[u8],
    instances: &Instances,
    template: &Option<UnitName>,
) -> bool
    ensures { result ≡ is_listed name.now pattern.now instances.now template.now }
{
    match template {
        None => false,
        Some(template) => pattern == template.text() && has_instance_of(instances, name),
    }
}

fn has_instance_of(instances: &Instances, name: &UnitName) -> bool
    ensures { result ≡ option_map_or (λ instance. list_any (bytes_eq instance) instances.now) (instance_of name.now) false }
{
    match name.instance() {
        None => false,
        Some(instance) => instances.has(instance),
    }
}
