//! Takes what is at slots: reads it from the disk, and adds it to what was captured.
ghost use Rattle.std.specs.Prelude.{◌≡◌, ◌++◌, ◌⊎◌, None, true, List, ℕ, IfOk, IfErr, IfSome, OnOk};
ghost use Rattle.std.specs.FinMap as map;
ghost use Rattle.unit_paths.specs.Slots.{is_slot};
ghost use Rattle.unit_paths.specs.Places.{unit_directory, preset_directory};
ghost use Rattle.disk.specs.Disks.{ListsAll};
ghost use Rattle.disk.specs.Captures.{leads_to, IsReasonAgainst, failures_after_capture};
ghost use Rattle.disk.specs.Capturing.{Takes, IsSlotIn, IsSlotAt, IsSlotAtOrIn, IsUnitSlotOf, IsPresetSlotOf, AtSome, optional};

use crate::capture_error::CaptureError;
use crate::captured::Captured;
use crate::disk::{Disk, Found, Listing};
use crate::leading::leads_to;
use link_tree::{Entry, PathError, Place, Slot, TreePath};
use std::alloc::{AllocError, Global};

/// What was captured so far, and where links lead that must still be followed.
#[derive(Drop)]
pub(crate) struct Taken {
    pub(crate) found: Captured,
    pub(crate) wanted: Vec<TreePath>,
}

impl Taken {
    fn want(&mut self, next: Option<TreePath>) -> Result<(), AllocError>
        ensures ok { OnOk result (self.new.wanted.items ≡ self.old.wanted.items ++ optional next) }
        ensures kept { self.new.found ≡ self.old.found }
    {
        if let Some(next) = next {
            self.wanted.push(next)?;
        }
        Ok(())
    }

    /// Adds an entry, and notes where it leads.
    pub(crate) fn add(
        &mut self,
        alloc: Global,
        path: TreePath,
        entry: Entry,
    ) -> Result<(), CaptureError>
        requires { map.get self.old.found path ≡ None }
        ensures added { OnOk result (self.new.found ≡ map.insert self.old.found path entry) }
        ensures room { IfErr result (λ e. (e ≡ CaptureError.OutOfMemory) ⊎ ((e ≡ CaptureError.TooMany) × (map.len self.old.found ≡ 65536))) }
        ensures wanted { OnOk result (self.new.wanted.items ≡ self.old.wanted.items ++ optional (leads_to path entry)) }
    {
        let next = leads_to(alloc, &path, &entry)?;
        self.want(next)?;
        self.found.add(path, entry)
    }

    /// Takes what is at a slot.
    pub(crate) fn take<D: Disk>(
        &mut self,
        alloc: Global,
        disk: &mut D,
        slot: &TreePath,
    ) -> Result<(), CaptureError>
        requires { is_slot slot.now ≡ true }
        ensures goes { Takes (D.holds disk.old) self.old self.new result (IsSlotAt slot.now) }
        ensures kept { D.holds disk.new ≡ D.holds disk.old }
        ensures counted { D.failures disk.new ≡ failures_after_capture (D.failures disk.old) result }
    {
        if self.found.has(slot) {
            return Ok(());
        }
        match disk.look(alloc, slot)? {
            Found::Nothing => Ok(()),
            Found::Entry(entry) => self.add(alloc, slot.copy()?, entry),
            Found::Odd(oddity) => Err(CaptureError::Odd(slot.copy()?, oddity)),
        }
    }

    /// Takes what is at a path, if that is a slot.
    fn take_if_slot<D: Disk>(
        &mut self,
        alloc: Global,
        disk: &mut D,
        path: &TreePath,
    ) -> Result<(), CaptureError>
        ensures goes { Takes (D.holds disk.old) self.old self.new result (IsSlotAt path.now) }
        ensures kept { D.holds disk.new ≡ D.holds disk.old }
        ensures counted { D.failures disk.new ≡ failures_after_capture (D.failures disk.old) result }
    {
        if Slot::of(path).is_none() {
            return Ok(());
        }
        self.take(alloc, disk, path)
    }

    /// Takes what is at those of the paths that are slots.
    fn take_slots<D: Disk>(
        &mut self,
        alloc: Global,
        disk: &mut D,
        paths: &[TreePath],
    ) -> Result<(), CaptureError>
        ensures goes { Takes (D.holds disk.old) self.old self.new result (AtSome paths.now IsSlotAt) }
        ensures kept { D.holds disk.new ≡ D.holds disk.old }
        ensures counted { D.failures disk.new ≡ failures_after_capture (D.failures disk.old) result }
    {
        for path in paths {
            self.take_if_slot(alloc, disk, path)?;
        }
        Ok(())
    }

    /// Takes what is at the slots in a directory.
    pub(crate) fn take_directory<D: Disk>(
        &mut self,
        alloc: Global,
        disk: &mut D,
        directory: &TreePath,
    ) -> Result<(), CaptureError>
        ensures goes { Takes (D.holds disk.old) self.old self.new result (IsSlotIn directory.now) }
        ensures kept { D.holds disk.new ≡ D.holds disk.old }
        ensures counted { D.failures disk.new ≡ failures_after_capture (D.failures disk.old) result }
    {
        let paths = listed(alloc, disk, directory)?;
        self.take_slots(alloc, disk, &paths)
    }

    /// Takes what is at a path in a directory of units: at a slot, or in a directory of slots.
    fn take_in_units<D: Disk>(
        &mut self,
        alloc: Global,
        disk: &mut D,
        path: &TreePath,
    ) -> Result<(), CaptureError>
        ensures goes { Takes (D.holds disk.old) self.old self.new result (IsSlotAtOrIn path.now) }
        ensures kept { D.holds disk.new ≡ D.holds disk.old }
        ensures counted { D.failures disk.new ≡ failures_after_capture (D.failures disk.old) result }
    {
        if Slot::of(path).is_some() {
            return self.take(alloc, disk, path);
        }
        if !path.is_bad_shape() {
            return Ok(());
        }
        self.take_directory(alloc, disk, path)
    }

    /// The same for each of the paths.
    fn take_all_in_units<D: Disk>(
        &mut self,
        alloc: Global,
        disk: &mut D,
        paths: &[TreePath],
    ) -> Result<(), CaptureError>
        ensures goes { Takes (D.holds disk.old) self.old self.new result (AtSome paths.now IsSlotAtOrIn) }
        ensures kept { D.holds disk.new ≡ D.holds disk.old }
        ensures counted { D.failures disk.new ≡ failures_after_capture (D.failures disk.old) result }
    {
        for path in paths {
            self.take_in_units(alloc, disk, path)?;
        }
        Ok(())
    }

    /// Takes what is at the slots of a directory of units, and in its directories of dependencies.
    pub(crate) fn take_units<D: Disk>(
        &mut self,
        alloc: Global,
        disk: &mut D,
        place: Place,
    ) -> Result<(), CaptureError>
        ensures goes { Takes (D.holds disk.old) self.old self.new result (IsUnitSlotOf place) }
        ensures kept { D.holds disk.new ≡ D.holds disk.old }
        ensures counted { D.failures disk.new ≡ failures_after_capture (D.failures disk.old) result }
    {
        let directory = path_of_units(alloc, place)?;
        let paths = listed(alloc, disk, &directory)?;
        self.take_all_in_units(alloc, disk, &paths)
    }

    /// Takes what is at the slots of a directory of presets.
    fn take_presets<D: Disk>(
        &mut self,
        alloc: Global,
        disk: &mut D,
        place: Place,
    ) -> Result<(), CaptureError>
        ensures goes { Takes (D.holds disk.old) self.old self.new result (IsPresetSlotOf place) }
        ensures kept { D.holds disk.new ≡ D.holds disk.old }
        ensures counted { D.failures disk.new ≡ failures_after_capture (D.failures disk.old) result }
    {
        let directory = path_of_presets(alloc, place)?;
        self.take_directory(alloc, disk, &directory)
    }

    /// Takes what is at the slots of these directories of units.
    pub(crate) fn take_all_units<D: Disk>(
        &mut self,
        alloc: Global,
        disk: &mut D,
        places: &[Place],
    ) -> Result<(), CaptureError>
        ensures goes { Takes (D.holds disk.old) self.old self.new result (AtSome places.now IsUnitSlotOf) }
        ensures kept { D.holds disk.new ≡ D.holds disk.old }
        ensures counted { D.failures disk.new ≡ failures_after_capture (D.failures disk.old) result }
    {
        for place in places {
            self.take_units(alloc, disk, *place)?;
        }
        Ok(())
    }

    /// Takes what is at the slots of the directories of presets next to these.
    pub(crate) fn take_all_presets<D: Disk>(
        &mut self,
        alloc: Global,
        disk: &mut D,
        places: &[Place],
    ) -> Result<(), CaptureError>
        ensures goes { Takes (D.holds disk.old) self.old self.new result (AtSome places.now IsPresetSlotOf) }
        ensures kept { D.holds disk.new ≡ D.holds disk.old }
        ensures counted { D.failures disk.new ≡ failures_after_capture (D.failures disk.old) result }
    {
        for place in places {
            self.take_presets(alloc, disk, *place)?;
        }
        Ok(())
    }
}

pub(crate) fn path_of_units(alloc: Global, place: Place) -> Result<TreePath, AllocError>
    ensures { IfOk result (λ path. path ≡ unit_directory place) }
{
    match TreePath::parse(alloc, place.directory().as_bytes()) {
        Ok(path) => Ok(path),
        Err(PathError::OutOfMemory) => Err(AllocError),
        Err(PathError::BadPath) => unreachable!(),
    }
}

fn path_of_presets(alloc: Global, place: Place) -> Result<TreePath, AllocError>
    ensures { IfOk result (λ path. path ≡ preset_directory place) }
{
    match TreePath::parse(alloc, place.preset_directory().as_bytes()) {
        Ok(path) => Ok(path),
        Err(PathError::OutOfMemory) => Err(AllocError),
        Err(PathError::BadPath) => unreachable!(),
    }
}

/// The paths in a directory, including all those with an entry at or beneath them.
pub(crate) fn listed<D: Disk>(
    alloc: Global,
    disk: &mut D,
    directory: &TreePath,
) -> Result<Vec<TreePath>, CaptureError>
    ensures listed { IfOk result (λ paths. IfSome (D.holds disk.old) (λ t. ListsAll t directory.now (Listing.Paths paths))) }
    ensures reason { IfErr result (λ e. IfSome (D.holds disk.old) (λ t. (asked : List (List ℕ)) → IsReasonAgainst t asked e)) }
    ensures kept { D.holds disk.new ≡ D.holds disk.old }
    ensures counted { D.failures disk.new ≡ failures_after_capture (D.failures disk.old) result }
{
    match disk.list(alloc, directory)? {
        Listing::Paths(paths) => Ok(paths),
        Listing::NoDirectory => Err(CaptureError::NoDirectory(directory.copy()?)),
    }
}
