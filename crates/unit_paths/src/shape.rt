//! At which paths a tree may have entries.
ghost use Rattle.std.specs.Prelude.{◌≡◌, []};
ghost use Rattle.unit_paths.specs.Shape.{is_beneath, is_under_slot, is_over_units, is_over_presets, is_bad_shape};

use crate::path::TreePath;
use crate::place::{PLACES, PRESET_PLACES};
use crate::slot::{slot_of, slots_in};
use crate::text::begins_with_slash;

impl TreePath {
    /// Whether this path lies beneath the other: it begins with the whole of the other and a slash.
    pub fn is_beneath(&self, above: &TreePath) -> bool
        ensures { result ≡ is_beneath self.now above.now }
    {
        is_beneath(self.text(), above.text())
    }

    /// Whether no tree may have an entry at the path: it lies beneath a slot, or is a directory
    /// that contains slots, or one above a directory of units or presets.
    pub fn is_bad_shape(&self) -> bool
        ensures { result ≡ is_bad_shape self.now }
    {
        is_bad_shape(self.text())
    }
}

fn is_beneath(path: &[u8], above: &[u8]) -> bool
    ensures { result ≡ is_beneath path.now above.now }
{
    match path.strip_prefix(above) {
        Some(rest) => begins_with_slash(rest),
        None => false,
    }
}

/// Whether the path lies beneath a slot.
fn is_under_slot(path: &[u8]) -> bool
    ensures { result ≡ is_under_slot [] path.now }
{
    for i in 0..path.len() {
        if path[i] == b'/' && slot_of(&path[..i]).is_some() {
            return true;
        }
    }
    false
}

/// Whether a directory of units lies beneath the path.
fn is_over_units(path: &[u8]) -> bool
    ensures { result ≡ is_over_units path.now }
{
    PLACES
        .iter()
        .any(|place| is_beneath(place.directory().as_bytes(), path))
}

/// Whether a directory of presets lies beneath the path.
fn is_over_presets(path: &[u8]) -> bool
    ensures { result ≡ is_over_presets path.now }
{
    PRESET_PLACES.iter().any(|place| is_beneath(place.preset_directory().as_bytes(), path))
}

#[tactic(auto, unfolding(crate::specs::Shape::is_bad_shape))]
fn is_bad_shape(path: &[u8]) -> bool
    ensures { result ≡ is_bad_shape path.now }
{
    is_under_slot(path) || slots_in(path).is_some() || is_over_units(path) || is_over_presets(path)
}
