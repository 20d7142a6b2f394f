//! Which link a word of an [Install] section asks for.
ghost use Rattle.std.specs.Prelude.{◌≡◌, ◌≢◌, IfOk, Some};
ghost use Rattle.std.specs.Option.{option_copied};
ghost use Rattle.unit_name.specs.Name.{instance_of, type_of};
ghost use Rattle.unit_name.specs.Parts.{kind_of};
ghost use Rattle.load_path.specs.RealNames.{is_same_type};
ghost use Rattle.install_section.specs.Words.{named_by};
ghost use Rattle.install_section.specs.Wishes.{listed_under, listing, has_aliases, are_alike, may_have, alias_meant, aliased, aliasing, wish, words_for, notice_key};
ghost use Rattle.install_section.specs.WishSlots.{IsAtSlot};

use crate::word::named_by;
use link_tree::{Dependency, Place, TreePath};
use load_path::put_in;
use std::alloc::{AllocError, Global};
use unit_file::{InstallText, NoticeKey, Reason, Word, listed_name};
use unit_name::{Kind, UnitName, UnitType};

/// The lists of an [Install] section whose words ask for links: systemd.unit(5), "[Install] Section
/// Options".
#[derive(Clone, Copy, Debug, PartialEq, Eq)]
pub(crate) enum LinkKey {
    WantedBy,
    RequiredBy,
    UpheldBy,
    Alias,
}

impl LinkKey {
    /// The words of the list.
    pub fn words(self, text: &InstallText) -> &[Word]
        ensures { result.now ≡ words_for self text.now }
    {
        match self {
            LinkKey::WantedBy => text.wanted_by.as_slice(),
            LinkKey::RequiredBy => text.required_by.as_slice(),
            LinkKey::UpheldBy => text.upheld_by.as_slice(),
            LinkKey::Alias => text.alias.as_slice(),
        }
    }

    /// The key under which they are written.
    pub fn notice_key(self) -> NoticeKey
        ensures { result ≡ notice_key self }
    {
        match self {
            LinkKey::WantedBy => NoticeKey::WantedBy,
            LinkKey::RequiredBy => NoticeKey::RequiredBy,
            LinkKey::UpheldBy => NoticeKey::UpheldBy,
            LinkKey::Alias => NoticeKey::Alias,
        }
    }
}

/// What a word asks for.
#[derive(Debug, Drop)]
pub(crate) enum Wish {
    /// A link at this path, to the unit's file.
    Link(TreePath),
    /// Nothing: the word is skipped.
    Skip(Reason),
    /// A link to the default instance of the template, which has none.
    NoInstance,
}

/// What a word of a unit's list asks for, in a directory of units.
pub(crate) fn wish_of(
    alloc: Global,
    place: Place,
    key: LinkKey,
    unit: &UnitName,
    identity: &UnitName,
    word: &Word,
) -> Result<Wish, AllocError>
    ensures wish { IfOk result (λ w. w ≡ wish place key unit.now identity.now word.now) }
    ensures slot { IfOk result IsAtSlot }
{
    let named = named_by(alloc, identity, word)?;
    match key {
        LinkKey::WantedBy => listing(alloc, place, Dependency::Wants, unit, identity, named),
        LinkKey::RequiredBy => listing(alloc, place, Dependency::Requires, unit, identity, named),
        LinkKey::UpheldBy => listing(alloc, place, Dependency::Upholds, unit, identity, named),
        LinkKey::Alias => aliasing(alloc, place, unit, named),
    }
}

/// What a word of `WantedBy=`, `RequiredBy=` or `UpheldBy=` asks for.
fn listing(
    alloc: Global,
    place: Place,
    dependency: Dependency,
    unit: &UnitName,
    identity: &UnitName,
    named: Result<UnitName, Reason>,
) -> Result<Wish, AllocError>
    ensures wish { IfOk result (λ w. w ≡ listing place dependency unit.now identity.now named) }
    ensures slot { IfOk result IsAtSlot }
{
    match named {
        Err(reason) => Ok(Wish::Skip(reason)),
        Ok(by) => match listed_name(&by, unit, identity) {
            None => Ok(Wish::NoInstance),
            Some(name) => Ok(Wish::Link(place.dependency_slot(alloc, dependency, &by, name)?)),
        },
    }
}

/// What a word of `Alias=` asks for.
fn aliasing(
    alloc: Global,
    place: Place,
    unit: &UnitName,
    named: Result<UnitName, Reason>,
) -> Result<Wish, AllocError>
    ensures wish { IfOk result (λ w. w ≡ aliasing place unit.now named) }
    ensures slot { IfOk result IsAtSlot }
{
    match named {
        Err(reason) => Ok(Wish::Skip(reason)),
        Ok(name) => {
            let alias = alias_meant(alloc, unit, name)?;
            aliased(alloc, place, unit, alias)
        }
    }
}

fn aliased(
    alloc: Global,
    place: Place,
    unit: &UnitName,
    alias: Option<UnitName>,
) -> Result<Wish, AllocError>
    ensures wish { IfOk result (λ w. w ≡ aliased place unit.now alias) }
    ensures slot { IfOk result IsAtSlot }
{
    match alias {
        None => Ok(Wish::Skip(Reason::BadName)),
        Some(alias) => {
            if may_have(unit, &alias) {
                return Ok(Wish::Link(place.slot(alloc, &alias)?));
            }
            Ok(Wish::Skip(Reason::BadAlias))
        }
    }
}

/// The alias that a name means: for an instance, the name of a template means its own instance, if
/// that is a valid name.
#[tactic(auto, unfolding(crate::specs::Wishes::alias_meant))]
fn alias_meant(
    alloc: Global,
    unit: &UnitName,
    name: UnitName,
) -> Result<Option<UnitName>, AllocError>
    ensures { IfOk result (λ alias. alias ≡ alias_meant unit.now name) }
{
    match (unit.kind(), name.kind()) {
        (Kind::Instance, Kind::Template) => put_in(alloc, &name, unit.instance()),
        _ => Ok(Some(name)),
    }
}

/// Whether a unit may have the alias: another name of the same type and kind, and of a type that
/// has aliases.
#[tactic(auto, unfolding(crate::specs::Wishes::may_have))]
fn may_have(unit: &UnitName, alias: &UnitName) -> bool
    ensures { result ≡ may_have unit.now alias.now }
{
    is_same_type(alias, unit)
        && has_aliases(unit.unit_type())
        && alias != unit
        && are_alike(alias.instance(), unit.instance())
}

fn is_same_type(one: &UnitName, other: &UnitName) -> bool
    ensures { result ≡ is_same_type (type_of one.now) (type_of other.now) }
{
    one.unit_type().text() == other.unit_type().text()
}

/// Whether units of the type may have aliases.
fn has_aliases(unit_type: UnitType) -> bool
    ensures { result ≡ has_aliases (Some unit_type) }
{
    match unit_type {
        UnitType::Mount | UnitType::Automount | UnitType::Swap | UnitType::Slice => false,
        _ => true,
    }
}

/// Whether both have no instance, or both have the same instance, or both are templates.
fn are_alike(one: Option<&[u8]>, other: Option<&[u8]>) -> bool
    ensures { result ≡ are_alike (option_copied one.entry) (option_copied other.entry) }
{
    match (one, other) {
        (None, None) => true,
        (Some(one), Some(other)) => one == other,
        _ => false,
    }
}
