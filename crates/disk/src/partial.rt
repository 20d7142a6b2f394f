//! A part of what a disk holds, captured path by path and area by area.
ghost use Rattle.std.specs.Prelude.{◌≡◌, ◌≤◌, ◌⊎◌, ◌↔◌, ℕ, IsTrue, true, OnOk, IfOk, IfErr, IfSome};
ghost use Rattle.std.specs.FinMap as map;
ghost use Rattle.unit_paths.specs.Paths.{parent};
ghost use Rattle.unit_paths.specs.Kinds.{is_dependency};
ghost use Rattle.unit_paths.specs.Slots.{slot_of};
ghost use Rattle.link_tree.specs.Shape.{IsTree};
ghost use Rattle.disk.specs.Captures.{failures_after_capture};
ghost use Rattle.disk.specs.Capturing.{IsCaptured};
ghost use Rattle.disk.specs.Disks.{Held};
ghost use Rattle.disk.specs.Partials.{AreCaptured, IsIn, IsNoneOrDirectory, IsPartial, IsReasonAgainstPart, area_of, found_in};

use crate::capture_error::CaptureError;
use crate::captured::Captured;
use crate::disk::Disk;
use crate::path_set::PathSet;
use crate::taking::Taken;
use crate::taking_parts::expect_directory;
use link_tree::{Place, Slot, Tree, TreePath};
use std::alloc::Global;

/// A set of slots that are captured together.
#[derive(Clone, Copy, Debug, PartialEq, Eq, Hash)]
pub enum Area {
    /// The slots of units in a directory of units, and the slots of dependencies in the `.wants`,
    /// `.requires` and `.upholds` directories there.
    Units(Place),
    /// Only these slots of dependencies.
    Dependencies(Place),
    /// The slots in the three directories of presets.
    Presets,
}

fn is_same(one: Area, other: Area) -> bool
    ensures { IsTrue result ↔ (one ≡ other) }
{
    one == other
}

/// The smallest area that contains a slot.
fn area_of(slot: Slot) -> Area
    ensures { result ≡ area_of slot }
{
    match slot {
        Slot::Unit(place) => Area::Units(place),
        Slot::Wants(place) => Area::Dependencies(place),
        Slot::Requires(place) => Area::Dependencies(place),
        Slot::Upholds(place) => Area::Dependencies(place),
        Slot::Preset(_) => Area::Presets,
    }
}

/// A part of what a disk holds: some paths and some areas were captured, one after another, and
/// every entry that exists there was found. After an error it is of no further use.
#[derive(Drop)]
pub struct Partial {
    taken: Taken,
    paths: PathSet,
    areas: Vec<Area>,
}

impl Partial {
    /// Nothing is captured yet.
    pub fn none(alloc: Global) -> Partial
        ensures { (t : Held) → IsPartial t result }
    {
        Partial {
            taken: Taken {
                found: Captured::none(alloc),
                wanted: Vec::new(alloc),
            },
            paths: PathSet::none(alloc),
            areas: Vec::new(alloc),
        }
    }

    /// Whether exactly this area was captured.
    fn lists(&self, area: Area) -> bool
        ensures { result ≡ true → (t : Held) → IsPartial t self.now → AreCaptured t (found_in self.now) (IsIn area) }
    {
        for known in &self.areas {
            if is_same(*known, area) {
                return true;
            }
        }
        false
    }

    /// Whether an area was captured, by itself or as part of a larger one.
    pub fn has_area(&self, area: Area) -> bool
        ensures { result ≡ true → (t : Held) → IsPartial t self.now → AreCaptured t (found_in self.now) (IsIn area) }
    {
        if self.lists(area) {
            return true;
        }
        match area {
            Area::Dependencies(place) => self.lists(Area::Units(place)),
            Area::Units(_) => false,
            Area::Presets => false,
        }
    }

    /// Whether a path was captured, by itself or as a slot of an area.
    pub fn has_path(&self, path: &TreePath) -> bool
        ensures { result ≡ true → (t : Held) → IsPartial t self.now → IsCaptured t (found_in self.now) path.now }
    {
        if self.paths.has(path) {
            return true;
        }
        match Slot::of(path) {
            Some(slot) => self.has_area(area_of(slot)),
            None => false,
        }
    }

    /// How many entries were found.
    pub fn len(&self) -> usize
        ensures len { result ≡ map.len (found_in self.now) }
        ensures within { result ≤ 65536 }
    {
        self.taken.found.len()
    }

    /// Captures a path. Something that can't be an entry is an error at a slot, and counts as
    /// nothing elsewhere. Before a slot of a dependency is read, its directory is checked.
    ///
    /// # Errors
    ///
    /// - `Odd`: the path is a slot, and a directory, a device, a file of over 1,048,576 bytes, or a
    ///   link whose target no inventory can have, is there.
    /// - `NoDirectory`: something else exists instead of the directory of dependencies.
    /// - `TooMany`: these would be over 65,536 entries.
    /// - `Failed`: the disk failed. `OutOfMemory`.
    pub fn take_path<D: Disk>(
        &mut self,
        alloc: Global,
        disk: &mut D,
        path: &TreePath,
    ) -> Result<(), CaptureError>
        ensures goes { OnOk result (IfSome (D.holds disk.old) (λ t. IsPartial t self.old → IsPartial t self.new)) }
        ensures captured { OnOk result (IfSome (D.holds disk.old) (λ t. IsPartial t self.old → AreCaptured t (found_in self.new) (λ q. (q ≡ path.now) ⊎ IsCaptured t (found_in self.old) q))) }
        ensures directory { OnOk result (IfSome (D.holds disk.old) (λ t. is_dependency (slot_of path.now) ≡ true → IsNoneOrDirectory t (parent path.now))) }
        ensures reason { IfErr result (λ e. IfSome (D.holds disk.old) (λ t. IsPartial t self.old → IsReasonAgainstPart t e)) }
        ensures kept { D.holds disk.new ≡ D.holds disk.old }
        ensures counted { D.failures disk.new ≡ failures_after_capture (D.failures disk.old) result }
    {
        expect_directory(alloc, disk, path)?;
        self.taken.take_at(alloc, disk, path)?;
        Ok(self.paths.insert(path.copy()?)?)
    }

    /// Captures the slots of an area: lists its directories, and reads their slots.
    ///
    /// # Errors
    ///
    /// - `Odd`: something that can't be an entry is at a slot of the area, as for `take_path`.
    /// - `NoDirectory`: something else exists instead of a directory of slots.
    /// - `TooMany`: these would be over 65,536 entries.
    /// - `Failed`: the disk failed. `OutOfMemory`.
    pub fn take_area<D: Disk>(
        &mut self,
        alloc: Global,
        disk: &mut D,
        area: Area,
    ) -> Result<(), CaptureError>
        ensures goes { OnOk result (IfSome (D.holds disk.old) (λ t. IsPartial t self.old → IsPartial t self.new)) }
        ensures captured { OnOk result (IfSome (D.holds disk.old) (λ t. IsPartial t self.old → AreCaptured t (found_in self.new) (λ q. IsIn area q ⊎ IsCaptured t (found_in self.old) q))) }
        ensures reason { IfErr result (λ e. IfSome (D.holds disk.old) (λ t. IsPartial t self.old → IsReasonAgainstPart t e)) }
        ensures kept { D.holds disk.new ≡ D.holds disk.old }
        ensures counted { D.failures disk.new ≡ failures_after_capture (D.failures disk.old) result }
    {
        self.taken.take_area(alloc, disk, area)?;
        Ok(self.areas.push(area)?)
    }

    /// The tree of the entries that were found.
    ///
    /// # Errors
    ///
    /// - `BadShape`: one of them is beneath another, or above a slot. No disk that holds a tree
    ///   results in this.
    /// - `OutOfMemory`.
    pub fn tree(&self, alloc: Global) -> Result<Tree, CaptureError>
        ensures tree { IfOk result (λ tree. (t : Held) → IsPartial t self.now → IsTree t.entries → tree ≡ found_in self.now) }
        ensures reason { IfErr result (λ e. (t : Held) → IsPartial t self.now → IsReasonAgainstPart t e) }
        ensures calm { (old : ℕ) → failures_after_capture old result ≡ old }
    {
        self.taken.found.to_tree(alloc)
    }
}
