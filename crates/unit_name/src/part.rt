//! The parts of a text, read as a name's: systemd.unit(5), "Description".
ghost use Rattle.std.specs.Prelude.{◌≡◌, ◌≤◌, length, IfOk};
ghost use Rattle.std.specs.List.{list_all};
ghost use Rattle.std.specs.Option.{option_copied};
ghost use Rattle.unit_name.specs.Parts.{is_name_byte};
ghost use Rattle.unit_name.specs.Name.{stem_of, suffix_of, prefix_of, instance_of, type_of, part_fault, with_instance, name_fault, instance_fault};

use crate::cut::{cut_at_first, cut_at_last};
use crate::fault::{InstanceFault, MAX_NAME, NameFault};
use crate::kind::UnitType;
use std::alloc::{AllocError, Global};

fn is_name_byte(b: u8) -> bool
    ensures { result ≡ is_name_byte b }
{
    b.is_ascii_alphanumeric() || b":-_.\\@".contains(&b)
}

fn has_name_bytes(text: &[u8]) -> bool
    ensures { result ≡ list_all is_name_byte text.now }
{
    text.iter().all(|b| is_name_byte(*b))
}

#[tactic(auto, unfolding(crate::specs::Name::stem_of))]
pub(crate) fn stem_in(text: &[u8]) -> &[u8]
    ensures stem { result.now ≡ stem_of text.now }
    ensures short { length result.now ≤ length text.now }
{
    match cut_at_last(text, b'.') {
        Some((stem, _)) => stem,
        None => text,
    }
}

#[tactic(auto, unfolding(crate::specs::Name::suffix_of))]
fn suffix_in(text: &[u8]) -> &[u8]
    ensures suffix { result.now ≡ suffix_of text.now }
    ensures short { length result.now ≤ length text.now }
{
    match cut_at_last(text, b'.') {
        Some((_, suffix)) => suffix,
        None => &[],
    }
}

#[tactic(auto, unfolding(crate::specs::Name::prefix_of))]
pub(crate) fn prefix_in(text: &[u8]) -> &[u8]
    ensures prefix { result.now ≡ prefix_of text.now }
    ensures short { length result.now ≤ length text.now }
{
    let stem = stem_in(text);
    match cut_at_first(stem, b'@') {
        Some((prefix, _)) => prefix,
        None => stem,
    }
}

#[tactic(auto, unfolding(crate::specs::Name::instance_of))]
pub(crate) fn instance_in(text: &[u8]) -> Option<&[u8]>
    ensures { option_copied result ≡ instance_of text.now }
{
    match cut_at_first(stem_in(text), b'@') {
        Some((_, instance)) => Some(instance),
        None => None,
    }
}

#[tactic(auto, unfolding(crate::specs::Name::type_of))]
pub(crate) fn type_in(text: &[u8]) -> Option<UnitType>
    ensures { result ≡ type_of text.now }
{
    UnitType::named(suffix_in(text))
}

#[tactic(auto, unfolding(crate::specs::Name::part_fault))]
fn part_fault_of(text: &[u8]) -> Option<NameFault>
    ensures { result ≡ part_fault text.now }
{
    if prefix_in(text).is_empty() {
        return Some(NameFault::NoPrefix);
    }
    if type_in(text).is_none() {
        return Some(NameFault::BadType);
    }
    None
}

#[tactic(auto, unfolding(crate::specs::Name::name_fault))]
pub(crate) fn fault_of(text: &[u8]) -> Option<NameFault>
    ensures { result ≡ name_fault text.now }
{
    if text.len() > MAX_NAME {
        return Some(NameFault::TooLong);
    }
    if !has_name_bytes(text) {
        return Some(NameFault::BadCharacter);
    }
    part_fault_of(text)
}

#[tactic(auto, unfolding(crate::specs::Name::instance_fault, crate::specs::Name::with_instance))]
pub(crate) fn instance_fault_of(text: &[u8], instance: &[u8]) -> Option<InstanceFault>
    requires { length text.now ≤ MAX_NAME }
    ensures { result ≡ instance_fault text.now instance.now }
{
    if instance.len() > MAX_NAME
        || prefix_in(text).len() + instance.len() + suffix_in(text).len() + 2 > MAX_NAME
    {
        return Some(InstanceFault::TooLong);
    }
    if !has_name_bytes(instance) {
        return Some(InstanceFault::BadCharacter);
    }
    None
}

#[tactic(auto, unfolding(crate::specs::Name::with_instance))]
pub(crate) fn text_with_instance(
    alloc: Global,
    text: &[u8],
    instance: &[u8],
) -> Result<Vec<u8>, AllocError>
    ensures { IfOk result (λ spelled. spelled.items ≡ with_instance text.now instance.now) }
{
    let mut spelled = Vec::from_slice(alloc, prefix_in(text))?;
    spelled.push(b'@')?;
    spelled.extend_from_slice(instance)?;
    spelled.push(b'.')?;
    spelled.extend_from_slice(suffix_in(text))?;
    Ok(spelled)
}
